// P7, P8 and the second half of P9: the simulator on the exclusive or of document 01.
use crate::say;

fn one(name: &[u8], sequence: &[u8], second: u8, budget: usize) {
    let mut row = [1, second, 0, 0, 0];
    say::answer(name, row::simulate(sequence, &mut row, budget));
    say::bytes(&row);
}

pub fn run() {
    let whole =
        b"110402010008\n12020304\n13020001\n13030002\n13040102\n1202\n13020304\n120304\n130302\n1403\n";
    let without_set =
        b"110402010007\n12020304\n13020001\n13030002\n13040102\n13020304\n120304\n130302\n1403\n";
    one(b"P7 budget 9", whole, 0, 9);
    one(b"P8 budget 4", whole, 0, 4);
    one(b"P9 without line 1202", without_set, 1, 9);
    one(b"P9 with it", whole, 1, 9);
    one(b"budget 0 changes nothing", whole, 0, 0);
    one(b"a byte other than 0 and 1, budget 0", whole, 2, 0);
    one(b"an empty text", b"", 0, 9);
}
