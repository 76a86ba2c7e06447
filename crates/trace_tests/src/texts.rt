// Documents, and the blocks of their legs as `step --trace` writes them.

// Two inputs and their sum, two legs.
pub(crate) const SUM: &str = "\
input a : int = 3
input b : int = 4
derived total : int rank 1 = a + b
settle
set a = 10
settle
";

pub(crate) const SUM_LOGS_1: &str = "\
# log a did 1
# log a computed 3 with a@1 picks -
# log a took total 0100000001
# log a sent total 0300000001010000
# log a sent total 0500000001010000000000000003010000000001
# log b did 1
# log b computed 4 with b@1 picks -
# log b took total 0100000001
# log b sent total 0300000001010001
# log b sent total 0500000001010000000000000004010000000001
# log total did 1
# log total sent a 0100000001
# log total sent b 0100000001
# log total took a 0300000001010000
# log total took a 0500000001010000000000000003010000000001
# log total took b 0300000001010001
# log total took b 0500000001010000000000000004010000000001
# log total computed 7 with a@1,b@1,total@1 picks 1,1
";

pub(crate) const SUM_LOGS_2: &str = "\
# log a did 2
# log a computed 10 with a@2 picks -
# log a sent total 050000000101000000000000000a010000000002
# log total took a 050000000101000000000000000a010000000002
# log total computed 14 with a@2,b@1,total@1 picks 1,0
";

// A service that reads an input along two ways, two legs.
pub(crate) const DIAMOND: &str = "\
input x : int = 1
derived left : int rank 1 = x + 1
derived right : int rank 1 = x * 10
derived both : int rank 2 = left + right
settle
set x = 2
settle
";

pub(crate) const DIAMOND_LOGS_1: &str = "\
# log x did 1
# log x computed 1 with x@1 picks -
# log x took left 0100000001
# log x sent left 0300000001010000
# log x sent left 0500000001010000000000000001010000000001
# log x took right 0100000001
# log x sent right 0300000001010000
# log x sent right 0500000001010000000000000001010000000001
# log left did 1
# log left sent x 0100000001
# log left took x 0300000001010000
# log left took x 0500000001010000000000000001010000000001
# log left took both 0100000001
# log left computed 2 with x@1,left@1 picks 1
# log left sent both 03000000010200000001
# log left sent both 05000000010100000000000000020200000000010100000001
# log right did 1
# log right sent x 0100000001
# log right took x 0300000001010000
# log right took x 0500000001010000000000000001010000000001
# log right took both 0100000001
# log right computed 10 with x@1,right@1 picks 1
# log right sent both 03000000010200000002
# log right sent both 050000000101000000000000000a0200000000010100000001
# log both did 1
# log both sent left 0100000001
# log both sent right 0100000001
# log both took left 03000000010200000001
# log both took left 05000000010100000000000000020200000000010100000001
# log both took right 03000000010200000002
# log both took right 050000000101000000000000000a0200000000010100000001
# log both computed 12 with x@1,left@1,right@1,both@1 picks 1,1
";

pub(crate) const DIAMOND_LOGS_2: &str = "\
# log x did 2
# log x computed 2 with x@2 picks -
# log x sent left 0500000001010000000000000002010000000002
# log x sent right 0500000001010000000000000002010000000002
# log left took x 0500000001010000000000000002010000000002
# log left computed 3 with x@2,left@1 picks 1
# log left sent both 0500000001010000000000000003010000000002
# log right took x 0500000001010000000000000002010000000002
# log right computed 20 with x@2,right@1 picks 1
# log right sent both 0500000001010000000000000014010000000002
# log both took left 0500000001010000000000000003010000000002
# log both took right 0500000001010000000000000014010000000002
# log both computed 23 with x@2,left@1,right@1,both@1 picks 1,1
";

// A service does not emit what is below what it emitted, also where it reads another service now.
pub(crate) const FLOOR: &str = "\
input x : int = 1
derived b : int rank 1 = x
derived c : int rank 1 = x * 100
derived n : int rank 2 = sum() over b
settle
set x = 2
drop n b
add n c
do x
turn x
take b from x
turn b
turn b
take n from b
turn n
turn n
do n
do n
take c from n
take n from c
take n from c
turn n
turn n
settle
";

// A value of an edge that went comes when the edge is there again.
pub(crate) const EPOCHS: &str = "\
input p : int = 5
derived n : int rank 1 = sum()
settle
add n p
drop n p
add n p
do n
take p from n
do n
do n
take n from p
take n from p
turn n
settle
";

// A service gets a new expression over other services.
pub(crate) const NEW_DEFINITION: &str = "\
input x : int = 2
input y : int = 5
derived a : int rank 1 = x + 1
derived n : int rank 2 = sum() over a, y
settle
define n = count() + y over x
settle
";

// A frame is taken of a link that is empty.
pub(crate) const IDLE_TAKE: &str = "\
input a : int = 3
derived n : int rank 1 = a
take n from a
settle
";
