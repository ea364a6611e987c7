// Runs the count rows of the film set through the calls of counting and mapping for C. What it prints is what the program `test_count_films` prints.
#![tactic(auto)]

fn main() {
    test_count_set::run(true);
}
