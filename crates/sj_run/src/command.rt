// The top call.
ghost use Rattle.std.specs.Prelude.{◌≡◌, ◌≢◌, ◌<◌, ◌≤◌, ◌+◌, ◌↔◌, length, IsTrue, IfSome, ℕ, None, Some};
ghost use Rattle.std.specs.Io.KnownBytes.{IsAtEnd};
ghost use Rattle.sj_base.specs.Count.{Rose, raised};
ghost use Rattle.sj_outside.specs.Outside.{Took, HasFile};
ghost use Rattle.sj_sql_grammar.specs.declared.refusal.FileKind.{FileKind};
ghost use Rattle.sj_generated.specs.Lines.{generated};
ghost use Rattle.sj_page.specs.Sides.{Grew};
ghost use Rattle.sj_sql_grammar.specs.Answers.{max_file};
ghost use Rattle.sj_rows.specs.Lines.{max_input};
ghost use Rattle.sj_file.specs.declared.job.Keys.TheVariants.{Any};
ghost use Rattle.sj_file.specs.File.{running, command, file_named, file_run, file_checked, file_generated, file_to_show, file_to_group, path_scanned};
ghost use Rattle.sj_file.specs.Conditions.{IfRuns, IfChecks, IfGenerates, IfShows, IfGroups, IfNames, IfAccepted, IfRead, IfToGroup, IsOrMemory};
ghost use Rattle.sj_sql_text.specs.Statements.{lines_text};
ghost use Rattle.sj_stream.specs.Input.{input_at};
ghost use Rattle.sj_run.specs.Ran.{Ran, WroteCanonical, moment_at, IsRefusedBy, IsBefore, accepted_text};
ghost use Rattle.sj_stream.specs.Out.{out_at};
ghost use Rattle.sj_scan_statement.specs.Statement.{RefusesToScan};
ghost use Rattle.sj_run.specs.Scanned.{scan_job, IfScans, IfRefusesToScan};
ghost use Rattle.sj_run.specs.Summary.{summary_text};
ghost use Rattle.sj_run.specs.Notes.{Noted, note_of};
ghost use Rattle.sj_stream.specs.LineJob.{output, allowed};
ghost use Rattle.sj_group_run.specs.GroupJob.{group_job, group_output};
ghost use Rattle.sj_run.specs.Output.{job};
ghost use Rattle.sj_stream.specs.Stream.{TookMost, IsFrontOf, WroteLeast, WroteWhole, StepsWithin};

use crate::check::check_file;
use crate::generate::run_generated;
use crate::group::group_file;
use crate::notes::tell;
use crate::scan::scan;
use crate::show::show_file;
use crate::stream::stream;
use sj_base::Steps;
use sj_file::{Form, Job, Keys, Status, accept, form_of};
use sj_outside::{Shelf, Sink, Source};
use sj_page::Page;
use std::alloc::Global;

/// Runs the statements of a file over an input.
fn run_file<H: Shelf, I: Source, O: Sink>(
    alloc: Global,
    keys: Keys,
    name: &str,
    shelf: &mut H,
    input: &mut I,
    out: &mut O,
    steps: &mut Steps,
) -> Status
    ensures ran { Ran (Some (running keys name.now))
        (moment_at H.Shelf I.Source O.Sink shelf.old input.old steps.old out.old)
        (moment_at H.Shelf I.Source O.Sink shelf.new input.new steps.new out.new) result }
    ensures untouched { IsBefore result → (input.new ≡ input.old) × (out.new ≡ out.old) × (steps.new ≡ steps.old) }
{
    let statements = match accept(alloc, name, shelf) {
        Ok(statements) => statements,
        Err(status) => return status,
    };
    let job = Job { keys, statements };
    let mut page = Page::new(alloc);
    stream(alloc, &job, input, out, &mut page, steps)
}

/// Does what the words ask for, and says how it ended.
///
/// - `run FILE` runs the statements of a file over the input.
/// - `run --unique-keys FILE` does the same, and a line in which keys are not unique is an error.
/// - `check FILE` tells how many statements of a file are accepted.
/// - `selfrun N FILE` runs the statements over N generated lines, and tells how many rows and error rows they gave.
/// - `show FILE` writes the canonical text of the statements of a file, each on a line.
/// - `group FILE` gathers the rows of the one statement of a file over the input, and writes their groups.
/// - `scan PATH` tells the items of a forward path for each line of the input.
///
/// Example: the words `run f`, a file `f` with `SELECT JSON_EXISTS(doc, 'lax $.a.b');` and the line `{"a":{"b":null}}`
/// write `1`, `1`, `R` and `TRUE`, with TABs between them (`sj_run_tests::faults::lines_in_any_cut`).
pub fn run<H: Shelf, I: Source, O: Sink, N: Sink>(
    alloc: Global,
    words: &[String],
    shelf: &mut H,
    input: &mut I,
    out: &mut O,
    notes: &mut N,
    steps: &mut Steps,
) -> Status
    // Why it ended so, and what it had written. All clauses below follow from this one, but for `notes` and those that
    // say that an object is as it was.
    ensures ran { Ran (command words.now)
        (moment_at H.Shelf I.Source O.Sink shelf.old input.old steps.old out.old)
        (moment_at H.Shelf I.Source O.Sink shelf.new input.new steps.new out.new) result }

    // THE HEADLINE: if a run ends with Done, it has written the output of all lines of the input, and nothing else.
    // That holds for each file that is accepted, and each input and output that tell their bytes.
    ensures headline { result ≡ Status.Done →
        IfRuns (command words.now) (H.files shelf.old) (λ keys file. IfAccepted file (λ statements.
        IfSome (I.left input.old) (λ bytes.
        Took (O.taken out.old) (O.taken out.new) (O.size out.old) (O.size out.new) (output (job keys statements) bytes)))) }

    // However a run ended, what it has written is a front of that output.
    ensures front { IfRuns (command words.now) (H.files shelf.old) (λ keys file. IfAccepted file (λ statements.
        IfSome (I.left input.old) (λ bytes.
        IsFrontOf (output (job keys statements) bytes) (out_at O.Sink out.old) (out_at O.Sink out.new)))) }

    // However a run ended, it has written the output of the lines whose LF stands before the last piece of the bytes
    // taken.
    ensures least { IfRuns (command words.now) (H.files shelf.old) (λ keys file. IfAccepted file (λ statements.
        WroteLeast (job keys statements) (input_at I.Source input.old steps.old) (input_at I.Source input.new steps.new)
        (out_at O.Sink out.old) (out_at O.Sink out.new))) }

    // After a failed read, a run has written the output of the whole lines that were taken.
    ensures read_fault_writes { result ≡ Status.ReadFault →
        IfRuns (command words.now) (H.files shelf.old) (λ keys file. IfAccepted file (λ statements.
        WroteWhole (job keys statements) (input_at I.Source input.old steps.old) (input_at I.Source input.new steps.new)
        (out_at O.Sink out.old) (out_at O.Sink out.new))) }
    // So it has at the limit of an input.
    ensures input_limit_writes { result ≡ Status.InputLimit →
        IfRuns (command words.now) (H.files shelf.old) (λ keys file. IfAccepted file (λ statements.
        WroteWhole (job keys statements) (input_at I.Source input.old steps.old) (input_at I.Source input.new steps.new)
        (out_at O.Sink out.old) (out_at O.Sink out.new))) }

    // If a check ends with Done, it has written how many statements the file has.
    ensures checked { result ≡ Status.Done →
        IfChecks (command words.now) (H.files shelf.old) (λ file. IfAccepted file (λ statements.
        Grew (out_at O.Sink out.old) (out_at O.Sink out.new) (accepted_text statements))) }
    // However a check ended, what it has written is a front of that.
    ensures check_front { IfChecks (command words.now) (H.files shelf.old) (λ file. IfAccepted file (λ statements.
        IsFrontOf (accepted_text statements) (out_at O.Sink out.old) (out_at O.Sink out.new))) }
    // A check leaves the input and the counter as they were.
    ensures check_reads_nothing { IfSome (file_checked (command words.now)) (λ _. (input.new ≡ input.old) × (steps.new ≡ steps.old)) }

    // If no call failed, a check of an accepted file ends with Done, unless memory ran out.
    ensures check_completes { ¬ (Rose (H.faults shelf.old) (H.faults shelf.new)) → ¬ (Rose (O.faults out.old) (O.faults out.new)) →
        IfChecks (command words.now) (H.files shelf.old) (λ file. length file ≤ max_file → IfAccepted file (λ _.
        IsOrMemory result Status.Done)) }

    // If a run over generated lines ends with Done, it has written how many lines, rows, error rows and bytes of output
    // there are.
    ensures generated_told { result ≡ Status.Done →
        IfGenerates (command words.now) (H.files shelf.old) (λ number file. IfAccepted file (λ statements.
        Grew (out_at O.Sink out.old) (out_at O.Sink out.new) (summary_text number statements))) }
    // However it ended, what it has written is a front of that.
    ensures generated_front { IfGenerates (command words.now) (H.files shelf.old) (λ number file. IfAccepted file (λ statements.
        IsFrontOf (summary_text number statements) (out_at O.Sink out.old) (out_at O.Sink out.new))) }
    // It leaves the input as it was.
    ensures generated_reads_nothing { IfSome (file_generated (command words.now)) (λ _. input.new ≡ input.old) }

    // If no call failed, a run of an accepted file over generated lines ends with Done, unless memory ran out.
    ensures generated_completes { ¬ (Rose (H.faults shelf.old) (H.faults shelf.new)) → ¬ (Rose (O.faults out.old) (O.faults out.new)) →
        IfGenerates (command words.now) (H.files shelf.old) (λ _ file. length file ≤ max_file → IfAccepted file (λ _.
        IsOrMemory result Status.Done)) }

    // If a file is shown with Done, the canonical text of its statements was written.
    ensures shown { result ≡ Status.Done →
        IfShows (command words.now) (H.files shelf.old) (λ file. IfRead file (λ statements.
        Grew (out_at O.Sink out.old) (out_at O.Sink out.new) (lines_text statements))) }
    // However it ended, what was written is a front of that.
    ensures show_front { IfShows (command words.now) (H.files shelf.old) (λ file. IfRead file (λ statements.
        IsFrontOf (lines_text statements) (out_at O.Sink out.old) (out_at O.Sink out.new))) }
    // What was shown is itself a file, which is accepted with the same statements and is its own canonical text.
    ensures shown_again { result ≡ Status.Done →
        IfShows (command words.now) (H.files shelf.old) (λ file. IfAccepted file (λ statements.
        WroteCanonical statements (out_at O.Sink out.old) (out_at O.Sink out.new))) }
    // It leaves the input and the counter as they were.
    ensures show_reads_nothing { IfSome (file_to_show (command words.now)) (λ _. (input.new ≡ input.old) × (steps.new ≡ steps.old)) }

    // If no call failed, an accepted file is shown with Done, unless memory ran out.
    ensures show_completes { ¬ (Rose (H.faults shelf.old) (H.faults shelf.new)) → ¬ (Rose (O.faults out.old) (O.faults out.new)) →
        IfShows (command words.now) (H.files shelf.old) (λ file. length file ≤ max_file → IfAccepted file (λ _.
        IsOrMemory result Status.Done)) }

    // If a file is grouped with Done, the error rows of all lines were written, and then the groups of all rows.
    ensures grouped { result ≡ Status.Done →
        IfGroups (command words.now) (H.files shelf.old) (λ file. IfToGroup file (λ aggregate statement.
        IfSome (I.left input.old) (λ bytes.
        Grew (out_at O.Sink out.old) (out_at O.Sink out.new) (group_output aggregate statement bytes)))) }
    // However it ended, what was written is a front of that.
    ensures group_front { IfGroups (command words.now) (H.files shelf.old) (λ file. IfToGroup file (λ aggregate statement.
        IfSome (I.left input.old) (λ bytes.
        IsFrontOf (group_output aggregate statement bytes) (out_at O.Sink out.old) (out_at O.Sink out.new)))) }
    // If the input was not read to its end, what was written is a front of the error rows, so no group was.
    ensures group_errors_first { ¬ IsAtEnd (I.left input.new) →
        IfGroups (command words.now) (H.files shelf.old) (λ file. IfToGroup file (λ aggregate statement.
        IfSome (I.left input.old) (λ bytes.
        IsFrontOf (output (group_job aggregate statement) bytes) (out_at O.Sink out.old) (out_at O.Sink out.new)))) }
    // After a failed read, and at the limit of an input, the error rows of the whole lines that were taken were written.
    ensures group_read_fault_writes { result ≡ Status.ReadFault →
        IfGroups (command words.now) (H.files shelf.old) (λ file. IfToGroup file (λ aggregate statement.
        WroteWhole (group_job aggregate statement) (input_at I.Source input.old steps.old) (input_at I.Source input.new steps.new)
        (out_at O.Sink out.old) (out_at O.Sink out.new))) }
    ensures group_input_limit_writes { result ≡ Status.InputLimit →
        IfGroups (command words.now) (H.files shelf.old) (λ file. IfToGroup file (λ aggregate statement.
        WroteWhole (group_job aggregate statement) (input_at I.Source input.old steps.old) (input_at I.Source input.new steps.new)
        (out_at O.Sink out.old) (out_at O.Sink out.new))) }
    // At Done it has read the input to its end.
    ensures group_reads_to_end { result ≡ Status.Done → IfSome (file_to_group (command words.now)) (λ _. IsAtEnd (I.left input.new)) }
    // However it ended, it took no more steps than the rows of the lines allow.
    ensures group_within { IfGroups (command words.now) (H.files shelf.old) (λ file. IfToGroup file (λ aggregate statement.
        StepsWithin (group_job aggregate statement) (input_at I.Source input.old steps.old) (input_at I.Source input.new steps.new))) }

    // If no call failed, a file to group over an input below the limit ends with Done, unless memory ran out.
    ensures group_completes { ¬ (Rose (H.faults shelf.old) (H.faults shelf.new)) → ¬ (Rose (I.faults input.old) (I.faults input.new)) →
        ¬ (Rose (O.faults out.old) (O.faults out.new)) →
        IfGroups (command words.now) (H.files shelf.old) (λ file. length file ≤ max_file → IfToGroup file (λ _ _.
        IfSome (I.left input.old) (λ bytes. length bytes < max_input → IsOrMemory result Status.Done))) }

    // If a path is scanned for with Done, the output of its statement was written: a row for each item of each line, and an
    // error row for each line that is not JSON.
    ensures scanned { result ≡ Status.Done → IfScans (command words.now) (λ path.
        IfSome (I.left input.old) (λ bytes.
        Grew (out_at O.Sink out.old) (out_at O.Sink out.new) (output (scan_job path) bytes))) }
    // However it ended, what was written is a front of that, and holds the output of the lines whose LF stands before the
    // last piece of the bytes taken.
    ensures scan_front { IfScans (command words.now) (λ path. IfSome (I.left input.old) (λ bytes.
        IsFrontOf (output (scan_job path) bytes) (out_at O.Sink out.old) (out_at O.Sink out.new))) }
    ensures scan_least { IfScans (command words.now) (λ path.
        WroteLeast (scan_job path) (input_at I.Source input.old steps.old) (input_at I.Source input.new steps.new)
        (out_at O.Sink out.old) (out_at O.Sink out.new)) }
    // After a failed read, and at the limit of an input, the output of the whole lines that were taken was written.
    ensures scan_read_fault_writes { result ≡ Status.ReadFault → IfScans (command words.now) (λ path.
        WroteWhole (scan_job path) (input_at I.Source input.old steps.old) (input_at I.Source input.new steps.new)
        (out_at O.Sink out.old) (out_at O.Sink out.new)) }
    ensures scan_input_limit_writes { result ≡ Status.InputLimit → IfScans (command words.now) (λ path.
        WroteWhole (scan_job path) (input_at I.Source input.old steps.old) (input_at I.Source input.new steps.new)
        (out_at O.Sink out.old) (out_at O.Sink out.new)) }
    // At Done it has read the input to its end.
    ensures scan_reads_to_end { result ≡ Status.Done → IfSome (path_scanned (command words.now)) (λ _. IsAtEnd (I.left input.new)) }
    // However it ended, it took no more steps than the rows of the lines allow.
    ensures scan_within { IfScans (command words.now) (λ path.
        StepsWithin (scan_job path) (input_at I.Source input.old steps.old) (input_at I.Source input.new steps.new)) }
    // It leaves the shelf as it was.
    ensures scan_asks_no_file { IfSome (path_scanned (command words.now)) (λ _. shelf.new ≡ shelf.old) }
    // It ends with a refusal only if the text is no path, or is one that is not forward; and then the number is 1.
    ensures scan_refused { (k : ℕ) (kind : FileKind) → result ≡ Status.Refused k kind →
        IfSome (path_scanned (command words.now)) (λ text. (k ≡ 1) × RefusesToScan text kind) }
    // Such a text is refused so, unless memory ran out.
    ensures scan_refuses { IfRefusesToScan (command words.now) (λ kind. IsOrMemory result (Status.Refused 1 kind)) }
    // If no call failed, a scan for a forward path over an input below the limit ends with Done, unless memory ran out.
    ensures scan_completes { ¬ (Rose (I.faults input.old) (I.faults input.new)) → ¬ (Rose (O.faults out.old) (O.faults out.new)) →
        IfScans (command words.now) (λ _. IfSome (I.left input.old) (λ bytes. length bytes < max_input → IsOrMemory result Status.Done)) }

    // If it ended before a file was taken, no input was read and nothing was written.
    ensures untouched { IsBefore result → (input.new ≡ input.old) × (out.new ≡ out.old) × (steps.new ≡ steps.old) }

    // At Usage the shelf is as it was too.
    ensures usage_untouched { result ≡ Status.Usage → shelf.new ≡ shelf.old }

    // It ends with Usage exactly if the words are none of the commands.
    ensures usage { (result ≡ Status.Usage) ↔ (command words.now ≡ None) }

    // It ends with ShelfFault only if the shelf's count of faults rose.
    ensures shelf_fault { result ≡ Status.ShelfFault → Rose (H.faults shelf.old) (H.faults shelf.new) }

    // It ends with ReadFault only if the input's count rose, and then no write had failed.
    ensures read_fault { result ≡ Status.ReadFault →
        Rose (I.faults input.old) (I.faults input.new) × (O.faults out.new ≡ O.faults out.old) }
    // It ends with WriteFault only if the output's count rose, and then no read had failed.
    ensures write_fault { result ≡ Status.WriteFault →
        Rose (O.faults out.old) (O.faults out.new) × (I.faults input.new ≡ I.faults input.old) }
    // A quiet shelf that has the file gives no ShelfFault.
    ensures quiet_shelf { IsTrue (H.quiet shelf.old) →
        IfSome (file_named (command words.now)) (λ name. HasFile (H.files shelf.old) name → result ≢ Status.ShelfFault) }

    // At Done no call had failed.
    ensures done { result ≡ Status.Done →
        (H.faults shelf.new ≡ H.faults shelf.old) × (I.faults input.new ≡ I.faults input.old) × (O.faults out.new ≡ O.faults out.old) }
    // At Done a run has read the input to its end.
    ensures read_to_end { result ≡ Status.Done → IfSome (file_run (command words.now)) (λ _. IsAtEnd (I.left input.new)) }

    // It ends with Memory only if no call had failed. When memory runs out, no clause says.
    ensures memory { result ≡ Status.Memory →
        (H.faults shelf.new ≡ H.faults shelf.old) × (I.faults input.new ≡ I.faults input.old) × (O.faults out.new ≡ O.faults out.old) }

    // It ends with a refusal only if the shelf didn't fail and the command refuses the file so. All commands refuse the same
    // files for the same reasons, but that grouping asks for one statement of a form, after all else.
    ensures refused { (k : ℕ) (kind : FileKind) → result ≡ Status.Refused k kind → (H.faults shelf.new ≡ H.faults shelf.old) ×
        IfNames (command words.now) (H.files shelf.old) (λ file. (length file ≤ max_file) × IsRefusedBy (command words.now) file k kind) }
    // A file that is refused is refused so, unless the shelf failed or memory ran out.
    ensures refuses { ¬ (Rose (H.faults shelf.old) (H.faults shelf.new)) →
        IfNames (command words.now) (H.files shelf.old) (λ file. length file ≤ max_file →
        (k : ℕ) (kind : FileKind) → IsRefusedBy (command words.now) file k kind → IsOrMemory result (Status.Refused k kind)) }

    // It ends with FileTooLong only if the shelf didn't fail and the file is longer than the limit.
    ensures too_long { result ≡ Status.FileTooLong → (H.faults shelf.new ≡ H.faults shelf.old) ×
        IfNames (command words.now) (H.files shelf.old) (λ file. max_file < length file) }
    // A file that is longer ends so, unless the shelf failed or memory ran out.
    ensures finds_too_long { ¬ (Rose (H.faults shelf.old) (H.faults shelf.new)) →
        IfNames (command words.now) (H.files shelf.old) (λ file. max_file < length file → IsOrMemory result Status.FileTooLong) }
    // Of such a file no more is read than the first byte past the limit.
    ensures too_long_reads { result ≡ Status.FileTooLong →
        IfNames (command words.now) (H.files shelf.old) (λ file. IfSome (H.left shelf.new) (λ rest.
        length file ≡ max_file + 1 + length rest)) }

    // If the shelf tells its files and has none of this name, it ends with ShelfFault or Memory.
    ensures absent { IfSome (H.files shelf.old) (λ files. IfSome (file_named (command words.now)) (λ name.
        files name ≡ None → IsOrMemory result Status.ShelfFault)) }

    // It ends with InputLimit only if as many bytes were taken as an input may have, and no call had failed.
    ensures input_limit { result ≡ Status.InputLimit → (I.faults input.new ≡ I.faults input.old) × (O.faults out.new ≡ O.faults out.old)
        × TookMost (I.left input.old) (I.left input.new) }
    // If so many were taken and no call failed, it ends so, unless memory ran out.
    ensures finds_input_limit { ¬ (Rose (I.faults input.old) (I.faults input.new)) → ¬ (Rose (O.faults out.old) (O.faults out.new)) →
        IfSome (I.left input.old) (λ all. IfSome (I.left input.new) (λ rest.
        length all ≡ length rest + max_input → IsOrMemory result Status.InputLimit)) }

    // If no call failed, a run of an accepted file over an input below the limit ends with Done, unless memory ran out.
    ensures complete { ¬ (Rose (H.faults shelf.old) (H.faults shelf.new)) → ¬ (Rose (I.faults input.old) (I.faults input.new)) →
        ¬ (Rose (O.faults out.old) (O.faults out.new)) →
        IfRuns (command words.now) (H.files shelf.old) (λ _ file. length file ≤ max_file → IfAccepted file (λ _.
        IfSome (I.left input.old) (λ bytes. length bytes < max_input → IsOrMemory result Status.Done))) }

    // However a run ended, it took no more steps than its lines allow: for each line and statement, what the plan of
    // its table may take and each function that is asked, up to the first that raises a state.
    ensures within { IfRuns (command words.now) (H.files shelf.old) (λ keys file. IfAccepted file (λ statements.
        StepsWithin (job keys statements) (input_at I.Source input.old steps.old) (input_at I.Source input.new steps.new))) }
    // So it is with generated lines.
    ensures generated_within { IfGenerates (command words.now) (H.files shelf.old) (λ number file. IfAccepted file (λ statements.
        steps.new ≤ raised steps.old (allowed (job Any statements) (generated number)))) }

    // A front of the status's message reaches the notes, and all of it unless their count of faults rose.
    ensures notes { Noted (out_at N.Sink notes.old) (out_at N.Sink notes.new) (note_of result) }
{
    let status = answer(alloc, words, shelf, input, out, steps);
    tell(notes, status);
    status
}

/// Does what the words ask for, and tells nothing. It is not given the notes, so the status does not depend on them.
fn answer<H: Shelf, I: Source, O: Sink>(
    alloc: Global,
    words: &[String],
    shelf: &mut H,
    input: &mut I,
    out: &mut O,
    steps: &mut Steps,
) -> Status
    ensures ran { Ran (command words.now)
        (moment_at H.Shelf I.Source O.Sink shelf.old input.old steps.old out.old)
        (moment_at H.Shelf I.Source O.Sink shelf.new input.new steps.new out.new) result }
    ensures untouched { IsBefore result → (input.new ≡ input.old) × (out.new ≡ out.old) × (steps.new ≡ steps.old) }
    ensures usage_untouched { result ≡ Status.Usage → shelf.new ≡ shelf.old }
    ensures check_reads_nothing { IfSome (file_checked (command words.now)) (λ _. (input.new ≡ input.old) × (steps.new ≡ steps.old)) }
    ensures generated_reads_nothing { IfSome (file_generated (command words.now)) (λ _. input.new ≡ input.old) }
    ensures show_reads_nothing { IfSome (file_to_show (command words.now)) (λ _. (input.new ≡ input.old) × (steps.new ≡ steps.old)) }
    ensures scan_asks_no_file { IfSome (path_scanned (command words.now)) (λ _. shelf.new ≡ shelf.old) }
{
    match form_of(words) {
        None => Status::Usage,
        Some(Form::Run(keys, name)) => run_file(alloc, keys, name, shelf, input, out, steps),
        Some(Form::Check(name)) => check_file(alloc, name, shelf, out),
        Some(Form::Generated(number, name)) => {
            run_generated(alloc, number, name, shelf, out, steps)
        }
        Some(Form::Show(name)) => show_file(alloc, name, shelf, out),
        Some(Form::Group(name)) => group_file(alloc, name, shelf, input, out, steps),
        Some(Form::Scan(path)) => scan(alloc, path, input, out, steps),
    }
}
