// spoiled: reads a file of instruction lines from standard input and prints for each line its number, and the instruction
// that it says or the refusal's number and column (docs/RULES.md, "Instruction lines").
#![tactic(auto)]

use lines::file::Lines;
use lines::line::read;
use std::io;
use std::io::Read;

fn main(rt: HostRuntime) -> io::Result<()> {
    let mut file = Vec::new(rt.alloc());
    rt.stdin().read_to_end(&mut file)?;
    for (before, line) in Lines(file.as_slice()).enumerate() {
        let number = before + 1;
        match read(line) {
            Ok(instruction) => println!(rt; "{number} {instruction}")?,
            Err(spoiled) => println!(rt; "{number} {spoiled}")?,
        }
    }
    Ok(())
}
