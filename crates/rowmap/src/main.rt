// The mapping program: reads a job line and a netlist from standard input, prints the sequence. The work is job::program.
#![tactic(auto)]

mod job;

// Prints the sequence for an input, or the refusal.
fn answer(input: &[u8]) {
    let mut out = io::large_buffer();
    let n = job::program(input, &mut out);
    io::write_all(1, &out[..n]);
}

// One byte more than a program holds is enough to know that the input is too long.
fn main() {
    let mut input = [0u8; 65537];
    let n = io::read_full(0, &mut input);
    answer(&input[..n]);
}
