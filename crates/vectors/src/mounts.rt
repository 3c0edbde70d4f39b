// A vector of a mount: 0 and the numbers of files, or the refusal; the words of both tables afterwards, which are 7 before; and the account.
ghost use Rattle.std.specs.Prelude.{◌≤◌, length, IfOk};

use crate::image::IMAGE_BYTES;
use crate::{image, lines, printing};
use std::io;
use std::io::Write;
use superblock::SUPER_BYTES;
use types::{Account, Refusal};

// Two rows, and a word left over.
const TABLE_WORDS: usize = 19;

fn print_answer(out: &mut impl Write, answer: Result<(u32, u32), Refusal>) -> io::Result<()> {
    match answer {
        Err(x) => printing::refusal(out, x),
        Ok((cnvs, seqs)) => printing::numbers(out, &[0, cnvs as u64, seqs as u64]),
    }
}

fn print_tables(out: &mut impl Write, cnv: &[u64], seq: &[u64]) -> io::Result<()> {
    write!(out, "\n cnv")?;
    printing::numbers(out, cnv)?;
    write!(out, "\n seq")?;
    printing::numbers(out, seq)
}

fn print_account(out: &mut impl Write, account: Account) -> io::Result<()> {
    write!(out, "\n account")?;
    printing::numbers(
        out,
        &[
            account.opened as u64,
            account.active as u64,
            account.open_limit as u64,
            account.active_limit as u64,
        ],
    )
}

// So many words of a table.
fn lent<'a>(
    out: &mut impl Write,
    table: &'a mut [u64; TABLE_WORDS],
    words: u64,
) -> io::Result<&'a mut [u64]>
    ensures { IfOk result (λ part. length part.now ≤ 19) }
{
    if words <= TABLE_WORDS as u64 {
        return Ok(&mut table[..words as usize]);
    }
    printing::bad_line(out)?;
    Ok(table)
}

// A limit has 32 bits.
fn limit(out: &mut impl Write, n: u64) -> io::Result<u32> {
    if let Ok(limit) = u32::try_from(n) {
        return Ok(limit);
    }
    printing::bad_line(out)?;
    Ok(0)
}

// The numbers are the block, how many bytes of the super block are lent, how many words of each table, and the limits of open and of active files.
pub fn show(
    out: &mut impl Write,
    numbers: &[u64],
    options: &[u8],
    image: &[u8; IMAGE_BYTES],
) -> io::Result<()> {
    let [block, bytes, cnvs, seqs, open, active] = lines::first::<6>(numbers);
    let open_limit = limit(out, open)?;
    let active_limit = limit(out, active)?;
    let superblock = image::first_bytes(out, image, bytes)?;
    let report = &image[SUPER_BYTES..];
    let mut cnv = [7u64; TABLE_WORDS];
    let mut seq = [7u64; TABLE_WORDS];
    let cnv = lent(out, &mut cnv, cnvs)?;
    let seq = lent(out, &mut seq, seqs)?;
    let outcome = mount::mount(
        block,
        superblock,
        options,
        report,
        open_limit,
        active_limit,
        cnv,
        seq,
    );
    let answer = outcome.answer;
    let mounted = outcome.mount;
    let account = mounted.account;
    print_answer(out, answer)?;
    print_tables(out, cnv, seq)?;
    print_account(out, account)
}
