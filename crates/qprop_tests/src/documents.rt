// Documents without step lines, and their settled texts: by the network and by the central evaluation.
use crate::calls::{SUM, SUM_SETTLED, call, repeated};
use crate::shop::{SHOP, SHOP_SETTLED};
use qprop_cli::Status;
use std::alloc::Global;
use std::test::Fail;

// Whether both commands write this text of the document, and which of them hands out a network.
fn settles_to(alloc: Global, document: &[u8], text: &[u8]) -> Result<bool, Fail> {
    let stepped = call(alloc, "step", document)?;
    let evaluated = call(alloc, "central", document)?;
    Ok(
        stepped.status == Status::Done
            && stepped.has_network
            && stepped.held.as_slice() == text
            && evaluated.status == Status::Done
            && !evaluated.has_network
            && evaluated.held.as_slice() == text,
    )
}

#[test]
fn documents_settle(rt: HostRuntime) -> Result<(), Fail> {
    let alloc = rt.alloc();
    let rows = [
        ("sum", SUM, SUM_SETTLED),
        ("empty document", "", ""),
        ("one input", "input a : int = 3", "settle 1\na 3\n"),
        (
            "two settles",
            "input a : int = 3\nsettle\nsettle\n",
            "settle 1\na 3\nsettle 2\na 3\n",
        ),
        (
            "doubled input",
            "input a : int = 1\nderived t : int rank 1 = a + a\n",
            "settle 1\na 1\nt 2\n",
        ),
        (
            "sum past the end",
            "input a : int = 9223372036854775807\ninput b : int = 1\nderived t : int rank 1 = a + b\n",
            "settle 1\na 9223372036854775807\nb 1\nt !overflow\n",
        ),
        (
            "least number",
            "input m : int = -9223372036854775808\nsettle\nset m = -007\n",
            "settle 1\nm -9223372036854775808\nsettle 2\nm -7\n",
        ),
        (
            "silence and blanks",
            "# prices\n\n \t\r\n\tinput\ta:int=3 \r\nsettle",
            "settle 1\na 3\n",
        ),
        (
            "texts and members",
            "input n : text = \"ab\"\nderived l : int rank 1 = len(n)\nderived c : int rank 1 = count() over n\nset n = \"abc\"\n",
            "settle 1\nn \"abc\"\nl 3\nc 1\n",
        ),
        (
            "a service of a later leg",
            "input a : int = 1\nsettle\nset a = 2\nderived t : int rank 01 = a + a\nset a = 5\n",
            "settle 1\na 1\nsettle 2\na 5\nt 10\n",
        ),
        (
            "diamond",
            "input x : int = 1\nderived left : int rank 1 = x + 1\nderived right : int rank 1 = x * 10\nderived both : int rank 2 = left + right\nsettle\nset x = 2\nsettle\n",
            "settle 1\nx 1\nleft 2\nright 10\nboth 12\nsettle 2\nx 2\nleft 3\nright 20\nboth 23\n",
        ),
        (
            "no members",
            "derived none : int rank 1 = sum()\nderived top : int rank 1 = max()",
            "settle 1\nnone 0\ntop !empty\n",
        ),
        (
            "ends of the numbers",
            "input m : int = -9223372036854775808\nderived p : int rank 1 = 9223372036854775807 + 1\nderived q : int rank 1 = m / -1\nderived r : int rank 1 = m % -1\nderived s : int rank 1 = -7 / 2\nderived t : int rank 1 = -7 % 2\nderived z : int rank 1 = 1 / 0\n",
            "settle 1\nm -9223372036854775808\np !overflow\nq !overflow\nr 0\ns -3\nt -1\nz !zero\n",
        ),
        (
            "faults",
            "input n : text = \"12x\"\ninput k : int = 5\nderived bad : int rank 1 = number(n)\nderived all : int rank 2 = sum() over k, bad\nderived many : int rank 2 = count() over k, bad\nderived one : int rank 2 = 1 / 0 + bad\nderived two : int rank 2 = bad + 1 / 0\nderived safe : int rank 2 = if k > 3 then k else bad\n",
            "settle 1\nn \"12x\"\nk 5\nbad !number\nall !number\nmany 2\none !zero\ntwo !number\nsafe 5\n",
        ),
        (
            "escapes",
            "input t : text = \"a\\\"b\\\\c\\td\\x01é\"\nderived l : int rank 1 = len(t)\n",
            "settle 1\nt \"a\\\"b\\\\c\\td\\x01é\"\nl 9\n",
        ),
        (
            "new definition",
            "input x : int = 2\ninput y : int = 5\nderived a : int rank 1 = x + 1\nderived n : int rank 2 = sum() over a, y\nsettle\ndefine n = count() + y over x\nsettle\n",
            "settle 1\nx 2\ny 5\na 3\nn 8\nsettle 2\nx 2\ny 5\na 3\nn 6\n",
        ),
        ("shop", SHOP, SHOP_SETTLED),
        (
            "rank two",
            "input a : int = 1\nderived t : int rank 2 = a + a\n",
            "settle 1\na 1\nt 2\n",
        ),
        (
            "rank five",
            "input a : int = 1\ninput b : int = 2\nderived t : int rank 5 = a + b\n",
            "settle 1\na 1\nb 2\nt 3\n",
        ),
        (
            "plan with a drop",
            "input a : int = 1\ninput b : int = 2\nderived t : int rank 5 = a + b\nderived u : int rank 6 = t + a over b\ndrop u b\n",
            "settle 1\na 1\nb 2\nt 3\nu 4\n",
        ),
    ];
    for (name, document, text) in rows {
        assert!(rt;
            settles_to(alloc, document.as_bytes(), text.as_bytes())?,
            "{name}"
        );
    }
    Ok(())
}

// A text of 256 letters, behind it a text with one more and one with none more.
fn long_text(alloc: Global) -> Result<Vec<u8>, Fail> {
    let mut document = repeated(alloc, "input t : text = \"", "a", 256)?;
    document.extend_from_slice(
        b"\"\nderived u : text rank 1 = t ++ \"b\"\nderived v : text rank 1 = t ++ \"\"\n",
    )?;
    Ok(document)
}

// Their settled text.
fn long_text_settled(alloc: Global) -> Result<Vec<u8>, Fail> {
    let mut text = repeated(alloc, "settle 1\nt \"", "a", 256)?;
    text.extend_from_slice(repeated(alloc, "\"\nu !long\nv \"", "a", 256)?.as_slice())?;
    text.extend_from_slice(b"\"\n")?;
    Ok(text)
}

#[test]
fn long_texts_are_faults(rt: HostRuntime) -> Result<(), Fail> {
    let alloc = rt.alloc();
    let document = long_text(alloc)?;
    let text = long_text_settled(alloc)?;
    assert!(rt; settles_to(alloc, document.as_slice(), text.as_slice())?);
    let mut longer = repeated(alloc, "input t : text = \"", "a", 257)?;
    longer.extend_from_slice(b"\"")?;
    for word in ["step", "central"] {
        let ended = call(alloc, word, longer.as_slice())?;
        assert!(rt;
            ended.held.as_slice() == b"refused 1 E04\n".as_slice(),
            "{word}"
        );
    }
    Ok(())
}

// The chain of 64 services, each one more than the one before.
fn chain(alloc: Global) -> Result<Vec<u8>, Fail> {
    let mut document = Vec::from_slice(alloc, b"input s0 : int = 1\n")?;
    for rank in 1..=63u32 {
        let before = rank - 1;
        let line = format!(in alloc; "derived s{rank} : int rank {rank} = s{before} + 1\n")?;
        document.extend_from_slice(line.as_bytes())?;
    }
    Ok(document)
}

// Its settled text.
fn chain_settled(alloc: Global) -> Result<Vec<u8>, Fail> {
    let mut text = Vec::from_slice(alloc, b"settle 1\n")?;
    for number in 0..=63u32 {
        let value = number + 1;
        let line = format!(in alloc; "s{number} {value}\n")?;
        text.extend_from_slice(line.as_bytes())?;
    }
    Ok(text)
}

// An input and the values from 1 to 1,023, one after the other.
fn all_values(alloc: Global) -> Result<Vec<u8>, Fail> {
    let mut document = Vec::from_slice(alloc, b"input x : int = 0\n")?;
    for value in 1..=1023u32 {
        let line = format!(in alloc; "set x = {value}\n")?;
        document.extend_from_slice(line.as_bytes())?;
    }
    Ok(document)
}

// So many empty legs.
fn legs_settled(alloc: Global, count: u32) -> Result<Vec<u8>, Fail> {
    let mut text = Vec::new(alloc);
    for leg in 1..=count {
        let line = format!(in alloc; "settle {leg}\n")?;
        text.extend_from_slice(line.as_bytes())?;
    }
    Ok(text)
}

#[test]
fn documents_at_the_limits_settle(rt: HostRuntime) -> Result<(), Fail> {
    let alloc = rt.alloc();
    let rows = [
        ("services", chain(alloc)?, chain_settled(alloc)?),
        (
            "changes",
            all_values(alloc)?,
            Vec::from_slice(alloc, b"settle 1\nx 1023\n")?,
        ),
        (
            "legs",
            repeated(alloc, "", "settle\n", 1000)?,
            legs_settled(alloc, 1000)?,
        ),
    ];
    for (name, document, text) in rows {
        assert!(rt;
            settles_to(alloc, document.as_slice(), text.as_slice())?,
            "{name}"
        );
    }
    Ok(())
}
