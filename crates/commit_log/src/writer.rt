//! The line of an event.

ghost use Rattle.std.specs.Prelude.{◌≡◌, ◌+◌, ◌<◌, ◌≤◌, ◌++◌, ◌∷◌, length};
ghost use Rattle.hart_step.specs.Events.{IsEvent, IsStored, IsWritten};
ghost use Rattle.commit_log.specs.Spelling.{answer_part, line, mode_letter, place, register_part, store_part, volatile_part};

use crate::line_buf::LineBuf;
use hart_step::{Event, Priv, Put};

fn mode_letter(mode: Priv) -> u8
    ensures { result ≡ mode_letter mode }
{
    match mode {
        Priv::U => b'U',
        Priv::S => b'S',
        Priv::M => b'M',
        Priv::D => b'D',
    }
}

/// Appends the letter of a record, and where its step stood.
#[tactic(auto, unfolding(crate::specs::Spelling::place))]
#[inline(always)]
fn put_place(buf: &mut LineBuf, letter: u8, hart: u8, mode: Priv, pc: u64)
    requires hart { hart < 8 }
    requires room { length buf.old + 22 ≤ 255 }
    ensures value { buf.new ≡ buf.old ++ letter ∷ place hart mode pc }
    ensures length { length buf.new ≡ length buf.old + 22 }
{
    buf.put_all(&[letter, b' ', b'0' + hart, b' ', mode_letter(mode)]);
    buf.put_word(8, pc);
}

fn put_register(buf: &mut LineBuf, rd: Option<(u8, u64)>)
    requires register { IsWritten rd }
    requires room { length buf.old + 21 ≤ 255 }
    ensures value { buf.new ≡ buf.old ++ register_part rd }
    ensures length { length buf.new ≤ length buf.old + 21 }
{
    let Some((number, value)) = rd else { return };
    buf.put_all(b" x");
    buf.put_number(number);
    buf.put_word(8, value);
}

fn put_store(buf: &mut LineBuf, st: Option<Put>)
    requires store { IsStored st }
    requires room { length buf.old + 39 ≤ 255 }
    ensures value { buf.new ≡ buf.old ++ store_part st }
    ensures length { length buf.new ≤ length buf.old + 39 }
{
    let Some(st) = st else { return };
    buf.put_all(b" st");
    buf.put_word(8, st.at);
    buf.put_all(&[b' ', b'0' + st.size]);
    buf.put_word(st.size, st.value);
}

fn put_answer(buf: &mut LineBuf, dv: Option<u64>)
    requires { length buf.old + 20 ≤ 255 }
    ensures value { buf.new ≡ buf.old ++ answer_part dv }
    ensures length { length buf.new ≤ length buf.old + 20 }
{
    let Some(value) = dv else { return };
    buf.put_all(b" dv");
    buf.put_word(8, value);
}

fn put_volatile(buf: &mut LineBuf, vl: Option<u64>)
    requires { length buf.old + 20 ≤ 255 }
    ensures value { buf.new ≡ buf.old ++ volatile_part vl }
    ensures length { length buf.new ≤ length buf.old + 20 }
{
    let Some(value) = vl else { return };
    buf.put_all(b" vl");
    buf.put_word(8, value);
}

/// Replaces the contents of the buffer by the line of an event, without a newline. The event is one
/// that has a spelling: its hart is below 8, its cause below 16, its register 1 to 31, and what it
/// stored is 1, 2, 4 or 8 bytes with a value that fits them.
#[tactic(auto, unfolding(crate::specs::Spelling::line))]
pub fn write(e: &Event, buf: &mut LineBuf)
    requires { IsEvent e.now }
    ensures value { buf.new ≡ line e.now }
    ensures short { length buf.new ≤ 131 }
{
    buf.clear();
    match *e {
        Event::Commit {
            hart,
            mode,
            pc,
            insn,
            rd,
            st,
            dv,
            vl,
        } => {
            put_place(buf, b'C', hart, mode, pc);
            buf.put_word(4, u64::from(insn));
            put_register(buf, rd);
            put_store(buf, st);
            put_answer(buf, dv);
            put_volatile(buf, vl);
        }
        Event::Exception {
            hart,
            mode,
            pc,
            cause,
            tval,
        } => {
            put_place(buf, b'X', hart, mode, pc);
            buf.put(b' ');
            buf.put_number(cause);
            buf.put_word(8, tval);
        }
        Event::Interrupt { hart, cause } => {
            buf.put_all(&[b'I', b' ', b'0' + hart, b' ']);
            buf.put_number(cause);
        }
        Event::Host { word } => {
            buf.put(b'H');
            buf.put_word(8, word);
        }
    }
}
