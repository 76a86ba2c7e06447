//! Laws over every type of values `V` and of definitions `D`: each is the contract of a function that does nothing.
ghost use Rattle.judge_state.specs.Blocks.{BlockListsBegin, BlockListsGoOn};
ghost use Rattle.judge_state.specs.Opening.{LogListsBegin};
ghost use Rattle.judge_state.specs.Laws.{LogListsGoOn, DueIsOneList};

/// The lists before a leg say what the state before it is.
pub fn log_lists_begin<V, D>()
    ensures { LogListsBegin V D }
{}

/// The lists after an entry say what the state after it is.
pub fn log_lists_go_on<V, D>()
    ensures { LogListsGoOn V D }
{}

/// Whether a frame is due is seen from one list.
pub fn due_is_one_list<V>()
    ensures { DueIsOneList V }
{}

/// The lists of all services with which a block begins say what the machine's state before the block is.
pub fn block_lists_begin<V, D>()
    ensures { BlockListsBegin V D }
{}

/// Each log line takes the lists on as it takes the machine on.
pub fn block_lists_go_on<V, D>()
    ensures { BlockListsGoOn V D }
{}
