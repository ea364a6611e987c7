// Runs the film set through the calls for C. What it prints is what the program `test_films` prints.
#![tactic(auto)]

fn main() {
    test_set::run(true);
}
