// Reads a trace on standard input, and prints the certificate of its order or why it is refused.
#![tactic(auto)]

ghost use Rattle.std.specs.Prelude.{◌≤◌};

use anyhow::{Context, anyhow};
use examination::examining::has_few;
use report::report::{LONGEST as LONGEST_REPORT, report_trace};
use std::io::{Read, Write};
use std::process::ExitCode;
use text::text::Text;

// How many bytes the longest trace has: 8 + 26 * 1,024. One more shows that an input is longer.
const LONGEST: u64 = 26_632;

// Prints the report of a trace where it fits `N` bytes, and answers whether a certificate is granted; else prints nothing. Not
// inlined, so that a short report does not go through the memory of the longest.
#[inline(never)]
fn print_within<const N: usize>(rt: &HostRuntime, bytes: &[u8]) -> anyhow::Result<Option<bool>>
    requires { N ≤ 150639 }
{
    let mut memory = [0u8; N];
    let mut text = Text::new(&mut memory);
    let granted = report_trace(bytes, &mut text);
    let Some(report) = text.whole() else {
        return Ok(None);
    };
    let mut out = rt.stdout();
    out.write_all(report).and_then(|_| out.flush()).context(
        "standard output cannot be written: the report is not complete",
    )?;
    Ok(Some(granted))
}

// The same, for few operations in memory that is short, since to fill more takes time: their report has less than 10,240 bytes
// (64 times 147 and 111 at most), and one that had more would go into the memory for the longest.
fn print_report(rt: &HostRuntime, bytes: &[u8]) -> anyhow::Result<Option<bool>> {
    if has_few(bytes) {
        if let Some(granted) = print_within::<10240>(rt, bytes)? {
            return Ok(Some(granted));
        }
    }
    print_within::<LONGEST_REPORT>(rt, bytes)
}

// Whether a certificate is granted.
fn examine(rt: &HostRuntime) -> anyhow::Result<bool> {
    let mut bytes = Vec::new(rt.alloc());
    rt.stdin().take(LONGEST + 1).read_to_end(&mut bytes).context(
        "standard input cannot be read: give the trace there, as in ./examine < FILE",
    )?;
    print_report(rt, bytes.as_slice())?.ok_or_else(|| anyhow!(
        "the report does not fit the memory that is lent for it: nothing is printed of it"
    ))
}

// The exit status says whether a certificate is granted; a refused trace has its line on standard output, and needs no more.
fn main(rt: HostRuntime) -> ExitCode {
    match examine(&rt) {
        Ok(true) => ExitCode::SUCCESS,
        Ok(false) => ExitCode::FAILURE,
        Err(fault) => {
            let _ = eprintln!(rt; "Error: {fault}");
            ExitCode::FAILURE
        }
    }
}
