// The readings of document 01 that the checker does not settle, and of document 02, set up, stepped and printed beside what these say.
#![tactic(auto)]

mod found;
mod phrases;
mod rows;
mod runs;
mod setups;

use rows::Row;
use shares::Share;
use std::io;
use std::io::Print;
use texts::Text;

// A text as a column of the table: the spaces behind it fill the width.
fn column(text: &Text, width: usize) -> &[u8] {
    text.bytes.get(..text.n.max(width)).unwrap_or(&text.bytes)
}

// Runs each row and writes its line. The verdict is whether the text of what came is what a document says.
fn lines(
    rt: &impl Print,
    as_said: &mut Share,
    rows: &[Row],
    flash: &[u8],
    ram: &[u8],
) -> io::Result<()> {
    for row in rows {
        let came = runs::stepped(*row, flash, ram);
        let same = came.same(row.says.as_bytes());
        as_said.count(same);
        let Row {
            word,
            setup,
            says,
            ..
        } = row;
        let verdict = if same { "as it says" } else { "WRONG" };
        print!(rt; "{word:08X}  {setup:<46}  {says:<48}  ")?;
        rt.write_all(column(&came, 48))?;
        println!(rt; "  {verdict}")?;
    }
    Ok(())
}

// The head of the table, its rows, and how many came as the documents say.
fn table(rt: &impl Print, flash: &[u8], ram: &[u8]) -> io::Result<()> {
    print!(rt;
        "Unless a row says otherwise: VL 256, every lane active, flash of 8192 bytes at 0, "
    )?;
    println!(rt; "RAM of 4096 bytes that ends at 2^64, X0 = 6144.\n")?;
    println!(rt;
        "{:<8}  {:<46}  {:<48}  {:<48}  verdict",
        "word", "set-up", "document 01 or 02 says", "what came"
    )?;
    let mut as_said = Share::NONE;
    lines(rt, &mut as_said, &rows::table(), flash, ram)?;
    lines(rt, &mut as_said, &rows::limits(), flash, ram)?;
    lines(rt, &mut as_said, &rows::request_one(), flash, ram)?;
    println!(rt; "\n{as_said} readings as the documents say")
}

// Fills the memory once, for every row. What cannot be written is left out.
fn main(rt: HostRuntime) {
    let mut flash = [0; 65537];
    setups::fill(&mut flash, 0xf1);
    setups::mark(&mut flash, rows::MARK);
    let mut ram = [0; 65537];
    setups::fill(&mut ram, 0xf2);
    let _ = table(&rt, &flash, &ram);
}
