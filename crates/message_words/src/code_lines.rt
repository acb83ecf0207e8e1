//! Reject codes one after the other, as they are told.

ghost use Rattle.std.specs.Prelude.{◌++◌, [], codes};
ghost use Rattle.claim_profile.specs.Reject.{code_text};
ghost use Rattle.message_words.specs.Encoded.{json_letters, json_string};
ghost use Rattle.message_words.specs.Facts.{named_code, named_codes, plain_codes};
ghost use Rattle.message_words.specs.Written.{Takes};

use crate::text::Text;
use claim_profile::Code;

/// Writes codes as a string.
pub(crate) fn put_codes_string(out: &mut Text, rejects: &[Code])
    ensures { Takes (json_string (plain_codes [] rejects.now)) out.old out.new }
{
    out.put("\"");
    put_plain_codes(out, rejects);
    out.put("\"");
}

/// Writes codes as letters of a string.
fn put_plain_codes(out: &mut Text, rejects: &[Code])
    ensures { Takes (json_letters (plain_codes [] rejects.now)) out.old out.new }
{
    let mut front: &[u8] = b"";
    for code in rejects {
        put_plain_code(out, front, *code);
        front = b" ";
    }
}

/// Writes a code after words, as letters of a string.
fn put_plain_code(out: &mut Text, front: &[u8], code: Code)
    ensures { Takes (json_letters (front.now ++ code_text code)) out.old out.new }
{
    put_letters(out, front, code.text());
}

/// Writes letters of a string, and others after them.
#[tactic(auto, using(crate::proofs::Rulings::letters_both))]
fn put_letters(out: &mut Text, front: &[u8], behind: &[u8])
    ensures { Takes (json_letters (front.now ++ behind.now)) out.old out.new }
{
    out.letters(front);
    out.letters(behind);
}

/// Writes codes with their names.
pub(crate) fn put_named_codes(out: &mut Text, rejects: &[Code])
    ensures { Takes (named_codes (codes ": ") rejects.now) out.old out.new }
{
    let mut front: &[u8] = b": ";
    for code in rejects {
        put_named_code(out, front, *code);
        front = b"; ";
    }
}

/// Writes a code with its name, after words.
#[tactic(auto, unfolding(crate::specs::Facts::named_code))]
fn put_named_code(out: &mut Text, front: &[u8], code: Code)
    ensures { Takes (named_code front.now code) out.old out.new }
{
    put_name_behind(out, front, code.text(), code.name().as_bytes());
}

/// Writes a code and its name, after words.
fn put_name_behind(out: &mut Text, front: &[u8], code: &[u8], name: &[u8])
    ensures { Takes (front.now ++ (code.now ++ codes " " ++ name.now)) out.old out.new }
{
    out.bytes(front);
    out.worded_behind(code, " ", name);
}
