// The program: reads page descriptions that are parted by a line of only `~`, and says of each what it is, or why it is refused.
#![tactic(auto)]

ghost use Rattle.std.specs.Prelude.{◌≤◌, length};

use page_text::reader::read_page;
use std::io;
use std::io::Read;

// How many bytes stand before the first line that is only `~`.
fn case_len(input: &[u8]) -> usize
    ensures { result ≤ length input.now }
{
    if input.starts_with(b"~\n") {
        return 0;
    }
    input
        .windows(3)
        .position(|bytes| bytes == b"\n~\n".as_slice())
        .map_or(input.len(), |end| end + 1)
}

fn say_page(rt: &HostRuntime, text: &[u8]) -> io::Result<()> {
    match read_page(rt.alloc(), text) {
        Ok(page) => {
            let columns = page.columns.len();
            let rows = page.rows.len();
            println!(rt; "page of {columns} columns and {rows} rows")
        }
        Err(fault) => println!(rt; "{fault}"),
    }
}

fn say_pages(rt: &HostRuntime, input: &[u8]) -> io::Result<()> {
    let mut rest = input;
    while !rest.is_empty() {
        let (page, end) = rest.split_at(case_len(rest));
        say_page(rt, page)?;
        rest = end.get(2..).unwrap_or(&[]);
    }
    Ok(())
}

fn main(rt: HostRuntime) -> io::Result<()> {
    let mut input = Vec::new(rt.alloc());
    rt.stdin().read_to_end(&mut input)?;
    say_pages(&rt, &input)
}
