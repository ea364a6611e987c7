// Runs the byte rows of the film set through the byte calls. The independent second program prints the same text.
#![tactic(auto)]

fn main() {
    test_byte_set::run(false);
}
