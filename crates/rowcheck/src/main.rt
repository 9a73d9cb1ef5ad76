// The checking program: reads a netlist and then a sequence from standard input, prints the verdict. The work is checker::program.
#![tactic(auto)]

// Prints the verdict on an input, a line of at most 8 bytes.
fn answer(input: &[u8]) {
    let mut out = [0; 8];
    let n = checker::program(input, &mut out);
    if let Some(line) = out.get(..n) {
        io::write_all(1, line);
    }
}

// One byte more than a program holds is enough to know that the input is too long.
fn main() {
    let mut input = [0; 65537];
    let n = io::read_full(0, &mut input);
    answer(&input[..n]);
}
