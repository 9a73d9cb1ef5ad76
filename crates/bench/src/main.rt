// The bench sheet's run cases: each prints one line, held to the file stdout.
#![tactic(auto)]

mod frame;
mod mapping;
mod reading;
mod rows;
mod say;

fn main() {
    reading::chains();
    reading::run();
    rows::run();
    mapping::run();
    mapping::chain();
    frame::run();
}
