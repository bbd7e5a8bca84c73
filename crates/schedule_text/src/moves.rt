// A report's line of a move.
ghost use Rattle.std.specs.Prelude.{◌≡◌, ◌+◌, ◌≤◌, ◌∷◌, [], ◌++◌, decimal, codes, length, false};
ghost use Rattle.arrayvec.specs.ArrayString.{array_string_len};
ghost use Rattle.blk_base.specs.Access.{is_access};
ghost use Rattle.blk_base.specs.Kinds.{IsFrontMove, IsBackCall};
ghost use Rattle.line_text.specs.Numbers.{hex8};
ghost use Rattle.schedule_text.specs.Parts.{AddsWords};
ghost use Rattle.schedule_text.specs.Line.{move_words, mover_words, back_words, mode_word};

use blk_base::{BackMover, Mode, Move, Mover, Path, Text};
use line_text::{LineText, put, put_hex, put_number, put_signed};

/// Adds a move that neither reads nor writes a word.
pub fn put_move(text: &mut LineText, one: &Move)
    requires room { array_string_len text.old ≤ 200 }
    requires other { is_access one.now ≡ false }
    ensures { AddsWords (move_words one.now) 1000 text.old text.new }
{
    match one {
        Move::FrontRead { .. } | Move::FrontWrite { .. } | Move::Read { .. } | Move::Write { .. } =>
            unreachable!(),
        Move::FrontCas { .. } | Move::FrontPort { .. } => put_front_move(text, one),
        Move::Map { .. }
        | Move::MapRefused { .. }
        | Move::Unmap { .. }
        | Move::Bind { .. }
        | Move::BindRefused { .. } => put_back_call(text, one),
        Move::DiskRead { job, sector } => put_disk(text, *job, "dread", *sector),
        Move::DiskWrite { job, sector } => put_disk(text, *job, "dwrite", *sector),
        Move::DiskFlush { job } => put_act(text, Mover::Job(*job), "flush"),
        Move::DiskTrim { job, sector, count } => {
            put_disk(text, *job, "trim", *sector);
            put_number(text, *count);
        }
        Move::Fence(who) => put_act(text, *who, "fence"),
        Move::Send(who) => put_act(text, *who, "send"),
        Move::ClosePort(who) => put_act(text, *who, "closeport"),
        Move::Event(who) => put_act(text, *who, "event"),
        Move::Watch(who, path) => put_path(text, *who, "watch", path),
        Move::Watched(who, path) => put_path(text, *who, "watched", path),
        Move::GetKey(who, path, found) => put_found(text, *who, path, found),
        Move::SetKey(who, path, value) => {
            put_path(text, *who, "setkey", path);
            put_value(text, value);
        }
    }
}

/// Adds a word that the front compares and exchanges, or its port.
fn put_front_move(text: &mut LineText, one: &Move)
    requires room { array_string_len text.old ≤ 200 }
    requires front { IsFrontMove one.now }
    ensures { AddsWords (move_words one.now) 1000 text.old text.new }
{
    match one {
        Move::FrontCas {
            frame,
            word,
            old,
            new,
            seen,
        } => {
            put(text, "front cas");
            put_place(text, *frame, *word, *old);
            put_hex(text, *new);
            put_hex(text, *seen);
        }
        Move::FrontPort { port } => {
            put(text, "front");
            put(text, "port");
            put_number(text, u64::from(*port));
        }
        _ => unreachable!(),
    }
}

/// Adds a hypercall of the back's side on a grant or on the front's port.
fn put_back_call(text: &mut LineText, one: &Move)
    requires room { array_string_len text.old ≤ 200 }
    requires call { IsBackCall one.now }
    ensures { AddsWords (move_words one.now) 1000 text.old text.new }
{
    match one {
        Move::Map {
            who,
            gref,
            mode,
            mapping,
            frame,
        } => {
            put_map(text, *who, *gref, *mode);
            put(text, "ok");
            put_number(text, *mapping);
            put_number(text, u64::from(*frame));
        }
        Move::MapRefused {
            who,
            gref,
            mode,
            status,
        } => put_refused(text, *who, *gref, *mode, *status),
        Move::Unmap { who, mapping } => {
            put_back(text, *who);
            put(text, "unmap");
            put_number(text, *mapping);
        }
        Move::Bind { port } => put_bind(text, *port, "ok"),
        Move::BindRefused { port } => put_bind(text, *port, "refused"),
        _ => unreachable!(),
    }
}

/// Adds a word's place and its value.
pub fn put_place(text: &mut LineText, frame: u32, word: u32, value: u32)
    requires { array_string_len text.old ≤ 300 }
    ensures { AddsWords (decimal frame ∷ decimal word ∷ hex8 value ∷ []) 400 text.old text.new }
{
    put_number(text, u64::from(frame));
    put_number(text, u64::from(word));
    put_hex(text, value);
}

/// Adds a mover of the back's side.
fn put_back(text: &mut LineText, who: BackMover)
    requires { array_string_len text.old ≤ 200 }
    ensures { AddsWords (back_words who) 230 text.old text.new }
{
    match who {
        BackMover::Back => put(text, "back"),
        BackMover::Job(k) => {
            put(text, "job");
            put_number(text, k);
        }
    }
}

/// Adds a mover.
fn put_mover(text: &mut LineText, who: Mover)
    requires { array_string_len text.old ≤ 200 }
    ensures { AddsWords (mover_words who) 230 text.old text.new }
{
    match who {
        Mover::Front => put(text, "front"),
        Mover::Back => put(text, "back"),
        Mover::Job(k) => {
            put(text, "job");
            put_number(text, k);
        }
    }
}

/// Adds the asking of a map.
fn put_map(text: &mut LineText, who: BackMover, gref: u32, mode: Mode)
    requires { array_string_len text.old ≤ 200 }
    ensures { AddsWords (back_words who ++ codes "map" ∷ decimal gref ∷ mode_word mode ∷ []) 300 text.old text.new }
{
    put_back(text, who);
    put(text, "map");
    put_number(text, u64::from(gref));
    match mode {
        Mode::ReadOnly => put(text, "r"),
        Mode::ReadWrite => put(text, "w"),
    }
}

/// Adds a map that was refused.
fn put_refused(text: &mut LineText, who: BackMover, gref: u32, mode: Mode, status: i32)
    requires { array_string_len text.old ≤ 200 }
    ensures { AddsWords (move_words (Move.MapRefused who gref mode status)) 450 text.old text.new }
{
    put_map(text, who, gref, mode);
    put(text, "refused");
    put_signed(text, status);
}

/// Adds a bind of the back's, and how it ended.
fn put_bind(text: &mut LineText, port: u32, end: &str)
    requires { array_string_len text.old + length end.now ≤ 300 }
    ensures { AddsWords (codes "back" ∷ codes "bind" ∷ decimal port ∷ end.now ∷ []) 450 text.old text.new }
{
    put(text, "back");
    put(text, "bind");
    put_number(text, u64::from(port));
    put(text, end);
}

/// Adds a call of the disk at a sector.
fn put_disk(text: &mut LineText, job: u64, name: &str, sector: u64)
    requires room { array_string_len text.old ≤ 200 }
    requires short { length name.now ≤ 20 }
    ensures { AddsWords (codes "job" ∷ decimal job ∷ name.now ∷ decimal sector ∷ []) 300 text.old text.new }
{
    put(text, "job");
    put_number(text, job);
    put(text, name);
    put_number(text, sector);
}

/// Adds a mover and what it does.
fn put_act(text: &mut LineText, who: Mover, name: &str)
    requires room { array_string_len text.old ≤ 200 }
    requires short { length name.now ≤ 20 }
    ensures { AddsWords (mover_words who ++ name.now ∷ []) 260 text.old text.new }
{
    put_mover(text, who);
    put(text, name);
}

/// Adds a mover, what it does and a path.
fn put_path(text: &mut LineText, who: Mover, name: &str, path: &Path)
    requires room { array_string_len text.old ≤ 200 }
    requires short { length name.now ≤ 20 }
    ensures { AddsWords (mover_words who ++ name.now ∷ path.now ∷ []) 350 text.old text.new }
{
    put_act(text, who, name);
    put(text, path.as_str());
}

/// Adds the reading of a key, and its text where it is there.
fn put_found(text: &mut LineText, who: Mover, path: &Path, found: &Option<Text>)
    requires { array_string_len text.old ≤ 200 }
    ensures { AddsWords (move_words (Move.GetKey who path.now found.now)) 500 text.old text.new }
{
    put_path(text, who, "getkey", path);
    if let Some(value) = found {
        put_value(text, value);
    }
}

/// Adds a key's text after an equals sign.
fn put_value(text: &mut LineText, value: &Text)
    requires { array_string_len text.old ≤ 400 }
    ensures { AddsWords ((61 ∷ value.now) ∷ []) 500 text.old text.new }
{
    put(text, "=");
    text.push_str(value.as_str());
}
