// Reads a file of cases on standard input, and prints the answer to each on a line of its own.
#![tactic(auto)]

use anyhow::anyhow;
use comparison::case::answer_case;
use comparison::cases::Cases;
use comparison::heap::Heap;
use std::io::{Read, Write};
use text::text::Text;

// How many bytes a file of cases has at most; one more shows that a file is longer.
const LONGEST: usize = 67_108_864;

// How many bytes the answer to a case has at most.
const LONGEST_ANSWER: usize = 1_048_576;

// Answers the cases that the bytes hold, one after another in the same memory.
fn answer_all(rt: &HostRuntime, bytes: &[u8]) -> anyhow::Result<()> {
    let mut out = rt.stdout();
    let mut heap = Heap::new(rt.alloc());
    let mut memory = vec![in rt.alloc(); 0u8; LONGEST_ANSWER]?;
    for (letter, body) in Cases(bytes) {
        let mut text = Text::new(memory.as_mut_slice());
        answer_case(&mut heap, letter, body, &mut text).map_err(|_| anyhow!(
            "there is not enough memory to answer a case"
        ))?;
        let answer = text.whole().ok_or_else(|| anyhow!(
            "the answer to a case is longer than 1,048,576 bytes: make fewer calls in a case"
        ))?;
        out.write_all(answer)?;
        out.write_all(b"\n")?;
    }
    Ok(out.flush()?)
}

fn run(rt: &HostRuntime) -> anyhow::Result<()> {
    let mut bytes = Vec::new(rt.alloc());
    rt.stdin().take(LONGEST as u64 + 1).read_to_end(&mut bytes)?;
    if bytes.len() > LONGEST {
        return Err(anyhow!(
            "the file of cases is longer than 67,108,864 bytes: cut it between two cases, and give each part alone"
        ));
    }
    answer_all(rt, bytes.as_slice())
}

fn main(rt: HostRuntime) -> anyhow::Result<()> {
    run(&rt)
}
