// Going over the lines of standard input, each of which is a case, or a heading.
use crate::fields::Fields;
use crate::report::print;

// The file descriptor of standard input.
const STDIN_FILENO: i32 = 0;

// Calls with the kind of each case, its first field, and the fields behind that. What is answered stands behind the line.
pub fn run<F: FnMut(&[u8], Fields)>(case: F)
    requires { F.IsAlwaysCallable case }
{
    each(b" :", b"\n", case);
}

// The same, where what is answered stands below the line, in lines that the case ends.
pub fn run_below<F: FnMut(&[u8], Fields)>(case: F)
    requires { F.IsAlwaysCallable case }
{
    each(b"\n", b"", case);
}

// With that between a line and its answers, and that behind them. A newline at the end of the input begins no line.
fn each<F: FnMut(&[u8], Fields)>(between: &[u8], behind: &[u8], mut case: F)
    requires { F.IsAlwaysCallable case }
{
    let mut input = io::large_buffer();
    let count = io::read_full(STDIN_FILENO, &mut input);
    for line in input[..count].split_inclusive(|letter| *letter == b'\n') {
        let line = line.strip_suffix(b"\n").unwrap_or(line);
        let mut fields = Fields::of(line);
        print(line);
        match fields.text() {
            b"#" => print(b"\n"),
            kind => {
                print(between);
                case(kind, fields);
                print(behind);
            }
        }
    }
    if count == input.len() {
        print(b"WRONG, more lines than there is room for\n");
    }
}
