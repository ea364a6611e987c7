// Runs the byte rows of the film set through the byte calls for C. What it prints is what the program `test_byte_films` prints.
#![tactic(auto)]

fn main() {
    test_byte_set::run(true);
}
