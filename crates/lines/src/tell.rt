// What is said of lines.

// Whether a line is a comment.
pub fn is_comment(s: &[u8]) -> bool {
    s.starts_with(b"#")
}

// The start of what is said of a line.
pub fn print_place(number: u64) {
    io::write_all(1, b"line ");
    io::print_decimal(1, number);
    io::write_all(1, b": ");
}

// How many calls of a kind were equal, and how many differ where any does.
pub fn print_counts(equal: u64, differ: u64) {
    io::write_all(1, b" ");
    io::print_decimal(1, equal);
    io::write_all(1, b" equal");
    if 0 < differ {
        io::write_all(1, b", ");
        io::print_decimal(1, differ);
        io::write_all(1, b" differ");
    }
    io::write_all(1, b"\n");
}
