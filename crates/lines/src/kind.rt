// Document 01's table of kinds: what a line is, by its first byte. A line's byte is compared with the variant that is due, as the rules do.
#[derive(Clone, Copy, Debug, PartialEq, Eq, Hash)]
pub enum Kind {
    Netlist = 0x01,
    Gate = 0x02,
    Output = 0x03,
    Job = 0x0F,
    Sequence = 0x11,
    Set = 0x12,
    Nor = 0x13,
    Place = 0x14,
    Cycles = 0x1E,
    Refusal = 0x1F,
}
