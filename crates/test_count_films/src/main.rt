// Runs the count rows of the film set through counting, mapping and prepare. The independent second program prints the same text.
#![tactic(auto)]

fn main() {
    test_count_set::run(false);
}
