// The program `toe` on an input that is longer than it reads: the good line and book of 65,536 bytes, and bytes behind them.
// A crate of its own, since a program has one stored case.
#![tactic(auto)]

fn main(rt: HostRuntime) {
    program::run(&rt);
}
