// The library for the tablets' host: entries on numbers and slices, to be called from C by include/mudzkvopi.h. Each entry hands its
// arguments on to the crate that does the work, and packs what comes back into one number.
#![tactic(auto)]

ghost use Rattle.std.specs.Prelude.{◌≡◌, length};
ghost use Rattle.theory.specs.TurnedDown.{read_text_under, read_list_under, read_word_for, read_table_for};
ghost use Rattle.listing.specs.Refused.{read_listing};
ghost use Rattle.word.specs.Answers.{zipped};
ghost use Rattle.packing.specs.Packed.{setting_of, form_of, packed, symbols};
ghost use Rattle.memory.specs.Calls.{memory, value_of};
ghost use Rattle.host.specs.Entries.{ReadsProgram, WritesProgram, Translates, TranslatesListing, RunsSource};
ghost use Rattle.host.specs.Entries.{ReadsWord, WritesWord, RunsOn, stands_at, Reports};

use machine_packing::{run_ended, value_read};
use memory::Position;
use packing::counted;
use program_packing::{program_read, translated};

// The version of these entries.
#[unsafe(no_mangle)]
pub extern "C" fn mudzkvopi_version() -> u32
    ensures { result ≡ 6 }
{
    6
}

// A text read into a lent list of three numbers a command: rules 1 to 8 under a setting, then 19.
#[unsafe(no_mangle)]
pub extern "C" fn mudzkvopi_read_program(setting: u32, text: &[u8], list: &mut [u8]) -> u64
    ensures { ReadsProgram (setting_of setting) text.now list.old result list.new }
{
    program_read(program::read(packing::setting(setting), text, &mut *list))
}

// A list written as a text into lent bytes: rules 3 to 8 under a setting, then 19.
#[unsafe(no_mangle)]
pub extern "C" fn mudzkvopi_write_program(setting: u32, list: &[u8], text: &mut [u8]) -> u64
    ensures { WritesProgram (setting_of setting) list.now text.old result text.new }
{
    counted(program::write(packing::setting(setting), list, &mut *text))
}

// A program handed in as text, translated in a form into a lent word: rules 1 to 8 under a setting, then 19.
#[unsafe(no_mangle)]
pub extern "C" fn mudzkvopi_translate(setting: u32, form: u32, text: &[u8], word: &mut [u8]) -> u64
    ensures { Translates (form_of form) (read_text_under (setting_of setting) text.now) word.old
        result word.new }
{
    let setting = packing::setting(setting);
    translated(translation::translate_text(setting, packing::form(form), text, &mut *word))
}

// A program handed in as a list, translated so: rules 3 to 8 under a setting, then 19.
#[unsafe(no_mangle)]
pub extern "C" fn mudzkvopi_translate_list(
    setting: u32,
    form: u32,
    list: &[u8],
    word: &mut [u8],
) -> u64
    ensures { Translates (form_of form) (read_list_under (setting_of setting) list.now) word.old
        result word.new }
{
    let setting = packing::setting(setting);
    translated(translation::translate_list(setting, packing::form(form), list, &mut *word))
}

// A listing handed in as text, translated into a lent word: rules 1 to 4 and 22, then 19.
#[unsafe(no_mangle)]
pub extern "C" fn mudzkvopi_translate_listing(text: &[u8], word: &mut [u8]) -> u64
    ensures { TranslatesListing (read_listing text.now) word.old result word.new }
{
    translated(listings::translate(text, &mut *word))
}

// A program handed in as text, run from a state of 82 numbers: rules 1 to 8 under a setting, then 9.
#[unsafe(no_mangle)]
pub extern "C" fn mudzkvopi_run_source(
    setting: u32,
    text: &[u8],
    state: &mut [u32],
    budget: u32,
) -> u64
    ensures { RunsSource (read_text_under (setting_of setting) text.now) state.old budget
        result state.new }
{
    run_ended(states::run_text(packing::setting(setting), text, &mut *state, budget))
}

// A program handed in as a list, run so: rules 3 to 8 under a setting, then 9.
#[unsafe(no_mangle)]
pub extern "C" fn mudzkvopi_run_source_list(
    setting: u32,
    list: &[u8],
    state: &mut [u32],
    budget: u32,
) -> u64
    ensures { RunsSource (read_list_under (setting_of setting) list.now) state.old budget
        result state.new }
{
    run_ended(states::run_list(packing::setting(setting), list, &mut *state, budget))
}

// A word read into kinds and operands: rules 11 to 14, then 19.
#[unsafe(no_mangle)]
pub extern "C" fn mudzkvopi_read_word(word: &[u8], kinds: &mut [u8], operands: &mut [u32]) -> u64
    ensures { ReadsWord word.now kinds.old operands.old
        result kinds.new operands.new }
{
    counted(word::read(word, &mut *kinds, &mut *operands))
}

// Kinds and operands written as a word: rules 11, 13 and 14 as for tables, then 19.
#[unsafe(no_mangle)]
pub extern "C" fn mudzkvopi_write_word(kinds: &[u8], operands: &[u32], word: &mut [u8]) -> u64
    ensures { WritesWord (zipped kinds.now operands.now) word.old result word.new }
{
    counted(table::write(kinds, operands, &mut *word))
}

// A word run on a lent machine, of as many registers as capacities, from a lent place and count of steps: rule 10, then 11 to 15.
#[unsafe(no_mangle)]
pub extern "C" fn mudzkvopi_run_word(
    capacities: &[u16],
    store: &mut [u8],
    lengths: &mut [u16],
    place: &mut i32,
    steps: &mut u32,
    word: &[u8],
    budget: u32,
) -> u64
    ensures { RunsOn (memory capacities.now store.old lengths.old)
        (stands_at place.old steps.old) (read_word_for (length capacities.now) word.now) budget
        result store.new lengths.new (stands_at place.new steps.new) }
{
    let at = Position {
        place: *place,
        steps: *steps,
    };
    let run = machine::run_word(capacities, &mut *store, &mut *lengths, at, word, budget);
    *place = run.position.place;
    *steps = run.position.steps;
    run_ended(run.ended)
}

// Kinds and operands run so: rule 10, then 11, 13, 14 and 15 as for tables.
#[unsafe(no_mangle)]
pub extern "C" fn mudzkvopi_run_table(
    capacities: &[u16],
    store: &mut [u8],
    lengths: &mut [u16],
    place: &mut i32,
    steps: &mut u32,
    kinds: &[u8],
    operands: &[u32],
    budget: u32,
) -> u64
    ensures { RunsOn (memory capacities.now store.old lengths.old)
        (stands_at place.old steps.old)
        (read_table_for (length capacities.now) (zipped kinds.now operands.now)) budget
        result store.new lengths.new (stands_at place.new steps.new) }
{
    let at = Position {
        place: *place,
        steps: *steps,
    };
    let ran = engine::run_numbers(
        capacities,
        &mut *store,
        &mut *lengths,
        at,
        kinds,
        operands,
        budget,
    );
    *place = ran.position.place;
    *steps = ran.position.steps;
    run_ended(ran.ended)
}

// The value that a lent machine's registers have: rule 10.
#[unsafe(no_mangle)]
pub extern "C" fn mudzkvopi_value(capacities: &[u16], store: &[u8], lengths: &[u16]) -> u64
    ensures { result ≡ packed symbols (value_of (memory capacities.now store.now lengths.now)) }
{
    value_read(memory::value(capacities, store, lengths))
}

// The run tool's text of a program and a sheet, on registers of the capacities lent: 19 alone. A program, capacities or a sheet that are
// turned down make a text of one line.
#[unsafe(no_mangle)]
pub extern "C" fn mudzkvopi_report_on(
    text: &[u8],
    sheet: &[u8],
    capacities: &[u16],
    out: &mut [u8],
) -> u64
    ensures { Reports text.now sheet.now capacities.now out.old result out.new }
{
    counted(report::report_on(text, sheet, capacities, &mut *out))
}
