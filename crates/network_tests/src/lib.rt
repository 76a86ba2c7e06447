//! Networks that documents drive: what they settle to, what their events answer, and what their logs say.
#![tactic(auto)]

#[cfg(test)]
mod comparing;
#[cfg(test)]
mod fullest;
#[cfg(test)]
mod generated;
#[cfg(test)]
mod logs;
#[cfg(test)]
mod notes;
#[cfg(test)]
mod playing;
#[cfg(test)]
mod settled;
#[cfg(test)]
mod telling;
