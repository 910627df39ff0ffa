// A script to try the program on: a loop with two branches, worked out, made faster, and worked out again.
pub const SAMPLE: &str = "# a loop of 1 to 4 passes
add scope 1 4
add block 0 5 8
add block 0 10 40
add block 0 3 16
add block 0 2 8
add edge 0 0 1 -2
add edge 0 0 2 0
add edge 0 1 3 -1
add edge 0 2 3 0
add edge 0 3 again -1
add edge 0 3 leave 0
work out
# the block of 10 cycles takes 8 now
set figures 0 1 8 40
work out
# refused: there is no node 9
add bar 0 9 1 2
# in passes 1 and 2 node 1 is not executed
add bar 0 1 1 2
work out
strike 0
work out
";
