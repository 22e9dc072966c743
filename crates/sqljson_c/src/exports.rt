// What C calls.
ghost use Rattle.std.specs.Prelude.{◌≡◌, ◌≢◌, ◌<◌, ◌≤◌, length, take};
ghost use Rattle.sj_sql_grammar.specs.Answers.{max_file};
ghost use Rattle.sj_file.specs.Refusals.{AcceptsSoMany, AcceptsWithText};
ghost use Rattle.sj_host.specs.Host.{AcceptsWithWidths};
ghost use Rattle.sqljson_c.specs.Ended.{IsRefusedAt};

use crate::ended::{Ended, done, gives_nothing};
use sj_host::{Unanswered, check, message, show, widths};
use std::alloc::Global;

/// What the header of this library has as `SQLJSON_INTERFACE`: it rises with each change that a caller may notice.
const INTERFACE: u32 = 1;

/// The number of the interface.
#[unsafe(no_mangle)]
pub extern "C" fn sqljson_interface() -> u32
    ensures { result ≡ 1 }
{
    INTERFACE
}

/// Counts the statements of a file.
#[unsafe(no_mangle)]
pub extern "C" fn sqljson_check(alloc: Global, file: &[u8], ended: &mut Ended)
    ensures accepted { ended.new.status ≡ 0 → AcceptsSoMany file.now ended.new.count }
    ensures refused { ended.new.status ≡ 2 → IsRefusedAt file.now ended.new.statement }
    ensures too_long { ended.new.status ≡ 8 → max_file < length file.now }
{
    match check(alloc, file) {
        Ok(count) => done(ended, count as u64),
        Err(why) => gives_nothing(ended, why),
    }
}

/// Writes the canonical text of the statements of a file.
#[unsafe(no_mangle)]
pub extern "C" fn sqljson_show(alloc: Global, file: &[u8], out: &mut [u8], ended: &mut Ended)
    ensures shown { ended.new.status ≡ 0 → AcceptsWithText file.now (take ended.new.count out.new) }
    ensures refused { ended.new.status ≡ 2 → IsRefusedAt file.now ended.new.statement }
    ensures too_long { ended.new.status ≡ 8 → max_file < length file.now }
    ensures untouched { ended.new.status ≢ 0 → out.new ≡ out.old }
{
    match show(alloc, file, out) {
        Ok(count) => done(ended, count as u64),
        Err(why) => gives_nothing(ended, why),
    }
}

/// Says how many fields the rows of each statement have.
#[unsafe(no_mangle)]
pub extern "C" fn sqljson_widths(alloc: Global, file: &[u8], out: &mut [u32], ended: &mut Ended)
    ensures accepted { ended.new.status ≡ 0 → AcceptsWithWidths file.now (take ended.new.count out.new) }
    ensures refused { ended.new.status ≡ 2 → IsRefusedAt file.now ended.new.statement }
    ensures too_long { ended.new.status ≡ 8 → max_file < length file.now }
    ensures untouched { ended.new.status ≢ 0 → out.new ≡ out.old }
{
    match widths(alloc, file) {
        Ok(widths) => {
            let all = widths.as_slice();
            if all.len() > out.len() {
                gives_nothing(ended, Unanswered::Room);
            } else {
                out[..all.len()].copy_from_slice(all);
                done(ended, all.len() as u64);
            }
        }
        Err(why) => gives_nothing(ended, why),
    }
}

/// Writes what is told of a file that is not accepted: the front of it that has room. Of one that is accepted nothing is told.
#[unsafe(no_mangle)]
pub extern "C" fn sqljson_message(alloc: Global, file: &[u8], out: &mut [u8]) -> usize
    ensures { result ≤ length out.new }
{
    match check(alloc, file) {
        Ok(_) => 0,
        Err(why) => match message(alloc, why) {
            Ok(text) => {
                let told = text.as_slice();
                let count = told.len().min(out.len());
                out[..count].copy_from_slice(&told[..count]);
                count
            }
            Err(_) => 0,
        },
    }
}
