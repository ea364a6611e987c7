// Runs the film set through the calls of prepare, draw and pgm. The independent second program prints the same text.
#![tactic(auto)]

fn main() {
    test_set::run(false);
}
