// Reads a line and a book from standard input, and prints the file that the line asks for, or why there is none.
#![tactic(auto)]

fn main(rt: HostRuntime) {
    program::run(&rt);
}
