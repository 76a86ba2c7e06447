// Going back to an earlier state of a book.
ghost use Rattle.std.specs.Prelude.{◌≡◌, ◌≤◌, length};
ghost use Rattle.svc_graph.specs.Rewound.{shortened};

use crate::{Book, History};
use svc_value::Clock;

// Of each history the first so many definitions.
fn shorten(histories: &mut [History], clocks: &[Clock])
    requires { length histories.old ≤ length clocks.now }
    ensures { histories.new ≡ shortened histories.old clocks.now }
{
    for i in 0..histories.len() {
        let len = count(clocks[i]);
        let history = &mut histories[i];
        history.truncate(len);
    }
}

// The clock as the length of a history.
fn count(clock: Clock) -> usize
    ensures { result ≡ clock }
{
    clock.0 as usize
}

impl Book {
    ghost use Rattle.svc_graph.specs.Book.{IsBook};
    ghost use Rattle.svc_graph.specs.Rewound.{rewound_rows};

    /// Goes back to an earlier state: of the first services as many stay as there are clocks, each with its first so many
    /// definitions. It takes no memory.
    pub fn rewind(&mut self, clocks: &[Clock])
        requires { IsBook (rewound_rows self.old clocks.now) }
        ensures { self.new ≡ rewound_rows self.old clocks.now }
    {
        self.names.truncate(clocks.len());
        self.kinds.truncate(clocks.len());
        self.histories.truncate(clocks.len());
        shorten(self.histories.as_mut_slice(), clocks);
    }
}
