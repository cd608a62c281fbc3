//! Settings out of lines.

ghost use Rattle.std.specs.Prelude.{◌≡◌, ◌<◌, IfOk, OnOk};
ghost use Rattle.compose.specs.Pieces.{words_of};
ghost use Rattle.compose.specs.Settings.{after_settings, four_in, keys_in, lone, named, setting_in, settings_in};
ghost use Rattle.compose.specs.Taken.{Taken, lines_in, last_in, opened};

use crate::fields::{Field, Letter};
use crate::refusal::{Fault, Setting, Wrong};
use crate::text::{Line, Lines, Words};
use runfile::settings::Settings;

// The next line, which is to be the line of this setting, after its name. Each function that takes a line says `Taken`, one word: what is
// left of the lines is part of what it answers.
fn setting_line<'a>(lines: &mut Lines<'a>, setting: Setting) -> Result<Line<'a>, Fault>
    ensures answer { opened result ≡ named setting (last_in lines.old) (lines_in lines.old) }
    ensures after { Taken lines.old lines.new }
{
    let Some(mut line) = lines.next() else {
        return Err(Fault {
            line: lines.number,
            wrong: Wrong::Expected(setting),
        });
    };
    match line.words.next() {
        Some(name) if name == setting.name().as_bytes() => Ok(line),
        _ => Err(line.fault(Wrong::Expected(setting))),
    }
}

// What the only word spells.
fn lone_field<F: Field>(mut words: Words) -> Result<F, Wrong>
    ensures answer { result ≡ lone F.spelled (words_of words.entry) }
{
    let field = words.field()?;
    words.end()?;
    Ok(field)
}

// The four numbers that are all of the words.
fn four_numbers(mut words: Words) -> Result<[u16; 4], Wrong>
    ensures answer { result ≡ four_in (words_of words.entry) }
{
    let numbers = [
        words.field()?,
        words.field()?,
        words.field()?,
        words.field()?,
    ];
    words.end()?;
    Ok(numbers)
}

// What the one word after the name of the next line spells. The line is to be the line of this setting.
fn read_setting<F: Field>(lines: &mut Lines, setting: Setting) -> Result<F, Fault>
    ensures answer { result ≡ setting_in setting F.spelled (last_in lines.old) (lines_in lines.old) }
    ensures after { Taken lines.old lines.new }
{
    let line = setting_line(lines, setting)?;
    line.locate(lone_field(line.words))
}

// The keys of the next line, which is to be the line of the keys.
fn read_keys(lines: &mut Lines) -> Result<[u16; 4], Fault>
    ensures answer { result ≡ keys_in (last_in lines.old) (lines_in lines.old) }
    ensures after { Taken lines.old lines.new }
{
    let line = setting_line(lines, Setting::Keys)?;
    line.locate(four_numbers(line.words))
}

/// The settings that the next seven lines spell. Refused where another line stands in place of one of them or the text ends, where a word is
/// missing or left over, and where one is no number or is out of its range: whichever comes first.
pub(crate) fn read_settings(lines: &mut Lines) -> Result<Settings, Fault>
    ensures answer { result ≡ settings_in (last_in lines.old) (lines_in lines.old) }
    ensures letter { IfOk result (λ s. s.pile < 256) }
    ensures after { OnOk result (lines_in lines.new ≡ after_settings (lines_in lines.old)) }
{
    let Letter(pile) = read_setting(lines, Setting::Pile)?;
    Ok(Settings {
        pile: char::from(pile),
        regions: read_setting(lines, Setting::Regions)?,
        interval: read_setting(lines, Setting::Interval)?,
        lines: read_setting(lines, Setting::Lines)?,
        n: read_setting(lines, Setting::N)?,
        life: read_setting(lines, Setting::Life)?,
        keys: read_keys(lines)?,
    })
}
