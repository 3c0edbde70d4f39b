// The library for C: each function takes numbers and lent slices. A mount value lives in words that the caller keeps, its account in words beside them, and
// an answer is a number, with its values in words that the caller lends. Any words whatever are taken: those that hold no mount value answer 10.
#![tactic(auto)]

ghost use Rattle.std.specs.Prelude.{◌≡◌, not, eqb};
ghost use Rattle.types.specs.declared.Call.{Call};
ghost use Rattle.engine.specs.Engine.{Input};
ghost use Rattle.step_words.specs.Words.{Completion, completion_of, step_words};
ghost use Rattle.mount_call_words.specs.Words.{mount_given, find_words, show_words};
ghost use Rattle.pieces_call_words.specs.Words.{begin_given, piece_given, end_given};
ghost use Rattle.crc32.specs.Crc.{crc32};
ghost use Rattle.format_words.specs.Words.{format_words, fields_words};

use types::Call;

#[unsafe(no_mangle)]
pub extern "C" fn zonefs_read(
    w: &mut [u64],
    account: &mut [u64],
    cnv: &mut [u64],
    seq: &mut [u64],
    kind: u32,
    number: u32,
    offset: u64,
    length: u64,
    a: &mut [u64],
) -> u64
    ensures { step_words w.old account.old cnv.old seq.old (Input.call kind number (Call.Read offset length)) a.old ≡ record { number = result; mount = w.new; account = account.new; cnv = cnv.new; seq = seq.new; answer = a.new } }
{
    step_words::call(
        w,
        account,
        cnv,
        seq,
        kind,
        number,
        Call::Read(offset, length),
        a,
    )
}

#[unsafe(no_mangle)]
pub extern "C" fn zonefs_write(
    w: &mut [u64],
    account: &mut [u64],
    cnv: &mut [u64],
    seq: &mut [u64],
    kind: u32,
    number: u32,
    offset: u64,
    length: u64,
    a: &mut [u64],
) -> u64
    ensures { step_words w.old account.old cnv.old seq.old (Input.call kind number (Call.Write offset length)) a.old ≡ record { number = result; mount = w.new; account = account.new; cnv = cnv.new; seq = seq.new; answer = a.new } }
{
    step_words::call(
        w,
        account,
        cnv,
        seq,
        kind,
        number,
        Call::Write(offset, length),
        a,
    )
}

#[unsafe(no_mangle)]
pub extern "C" fn zonefs_truncate(
    w: &mut [u64],
    account: &mut [u64],
    cnv: &mut [u64],
    seq: &mut [u64],
    kind: u32,
    number: u32,
    target: u64,
    a: &mut [u64],
) -> u64
    ensures { step_words w.old account.old cnv.old seq.old (Input.call kind number (Call.Truncate target)) a.old ≡ record { number = result; mount = w.new; account = account.new; cnv = cnv.new; seq = seq.new; answer = a.new } }
{
    step_words::call(
        w,
        account,
        cnv,
        seq,
        kind,
        number,
        Call::Truncate(target),
        a,
    )
}

#[unsafe(no_mangle)]
pub extern "C" fn zonefs_flush(
    w: &mut [u64],
    account: &mut [u64],
    cnv: &mut [u64],
    seq: &mut [u64],
    kind: u32,
    number: u32,
    a: &mut [u64],
) -> u64
    ensures { step_words w.old account.old cnv.old seq.old (Input.call kind number Call.Flush) a.old ≡ record { number = result; mount = w.new; account = account.new; cnv = cnv.new; seq = seq.new; answer = a.new } }
{
    step_words::call(w, account, cnv, seq, kind, number, Call::Flush, a)
}

// Opens for writing.
#[unsafe(no_mangle)]
pub extern "C" fn zonefs_open(
    w: &mut [u64],
    account: &mut [u64],
    cnv: &mut [u64],
    seq: &mut [u64],
    kind: u32,
    number: u32,
    a: &mut [u64],
) -> u64
    ensures { step_words w.old account.old cnv.old seq.old (Input.call kind number Call.Open) a.old ≡ record { number = result; mount = w.new; account = account.new; cnv = cnv.new; seq = seq.new; answer = a.new } }
{
    step_words::call(w, account, cnv, seq, kind, number, Call::Open, a)
}

#[unsafe(no_mangle)]
pub extern "C" fn zonefs_close(
    w: &mut [u64],
    account: &mut [u64],
    cnv: &mut [u64],
    seq: &mut [u64],
    kind: u32,
    number: u32,
    a: &mut [u64],
) -> u64
    ensures { step_words w.old account.old cnv.old seq.old (Input.call kind number Call.Close) a.old ≡ record { number = result; mount = w.new; account = account.new; cnv = cnv.new; seq = seq.new; answer = a.new } }
{
    step_words::call(w, account, cnv, seq, kind, number, Call::Close, a)
}

// The command that a file has outstanding was done well.
#[unsafe(no_mangle)]
pub extern "C" fn zonefs_complete(
    w: &mut [u64],
    account: &mut [u64],
    cnv: &mut [u64],
    seq: &mut [u64],
    kind: u32,
    number: u32,
    a: &mut [u64],
) -> u64
    ensures { step_words w.old account.old cnv.old seq.old (Input.completion kind number Completion.good) a.old ≡ record { number = result; mount = w.new; account = account.new; cnv = cnv.new; seq = seq.new; answer = a.new } }
{
    step_words::end_command(w, account, cnv, seq, kind, number, true, b"", false, a)
}

// The command that a file has outstanding failed. The bytes are its zone's record, and `given` (any number but 0) says that the record states
// a capacity.
#[unsafe(no_mangle)]
pub extern "C" fn zonefs_fail(
    w: &mut [u64],
    account: &mut [u64],
    cnv: &mut [u64],
    seq: &mut [u64],
    kind: u32,
    number: u32,
    bytes: &[u8],
    given: u32,
    a: &mut [u64],
) -> u64
    ensures { step_words w.old account.old cnv.old seq.old (Input.completion kind number (completion_of (not (eqb given 0)) bytes.now)) a.old ≡ record { number = result; mount = w.new; account = account.new; cnv = cnv.new; seq = seq.new; answer = a.new } }
{
    step_words::end_command(
        w,
        account,
        cnv,
        seq,
        kind,
        number,
        false,
        bytes,
        given != 0,
        a,
    )
}

// Mounts: fills both tables and the words of the mount and of its account. A limit of 0 is none.
#[unsafe(no_mangle)]
pub extern "C" fn zonefs_mount(
    block: u64,
    superblock: &[u8],
    options: &[u8],
    report: &[u8],
    open_limit: u32,
    active_limit: u32,
    cnv: &mut [u64],
    seq: &mut [u64],
    w: &mut [u64],
    account: &mut [u64],
    a: &mut [u64],
) -> u64
    ensures { mount_given block superblock.now options.now report.now open_limit active_limit cnv.old seq.old w.old account.old a.old ≡ record { number = result; mount = w.new; account = account.new; cnv = cnv.new; seq = seq.new; answer = a.new } }
{
    mount_call_words::mount(
        block,
        superblock,
        options,
        report,
        open_limit,
        active_limit,
        cnv,
        seq,
        w,
        account,
        a,
    )
}

// Begins a mount whose report arrives in pieces: fills the words that are kept between them. A limit of 0 is none.
#[unsafe(no_mangle)]
pub extern "C" fn zonefs_begin(
    block: u64,
    superblock: &[u8],
    options: &[u8],
    open_limit: u32,
    active_limit: u32,
    w: &mut [u64],
    a: &mut [u64],
) -> u64
    ensures { begin_given block superblock.now options.now open_limit active_limit w.old a.old ≡ record { number = result; pieces = w.new; answer = a.new } }
{
    pieces_call_words::begin(block, superblock, options, open_limit, active_limit, w, a)
}

// Takes a piece of the report: stores the rows of the files that it finishes.
#[unsafe(no_mangle)]
pub extern "C" fn zonefs_piece(
    w: &mut [u64],
    bytes: &[u8],
    cnv: &mut [u64],
    seq: &mut [u64],
    a: &mut [u64],
) -> u64
    ensures { piece_given w.old bytes.now cnv.old seq.old a.old ≡ record { number = result; pieces = w.new; cnv = cnv.new; seq = seq.new; answer = a.new } }
{
    pieces_call_words::piece(w, bytes, cnv, seq, a)
}

// Ends a mount in pieces: fills the words of the mount and of its account.
#[unsafe(no_mangle)]
pub extern "C" fn zonefs_end(
    w: &mut [u64],
    m: &mut [u64],
    account: &mut [u64],
    a: &mut [u64],
) -> u64
    ensures { end_given w.old m.old account.old a.old ≡ record { number = result; pieces = w.new; mount = m.new; account = account.new; answer = a.new } }
{
    pieces_call_words::end(w, m, account, a)
}

// The file of a name.
#[unsafe(no_mangle)]
pub extern "C" fn zonefs_find(
    w: &[u64],
    account: &[u64],
    cnv: &[u64],
    seq: &[u64],
    name: &[u8],
    a: &mut [u64],
) -> u64
    ensures { find_words w.now account.now cnv.now seq.now name.now a.old ≡ record { number = result; answer = a.new } }
{
    mount_call_words::find(w, account, cnv, seq, name, a)
}

// A file's row, and the mode that it is shown with.
#[unsafe(no_mangle)]
pub extern "C" fn zonefs_show(
    w: &[u64],
    account: &[u64],
    cnv: &[u64],
    seq: &[u64],
    kind: u32,
    number: u32,
    a: &mut [u64],
) -> u64
    ensures { show_words w.now account.now cnv.now seq.now kind number a.old ≡ record { number = result; answer = a.new } }
{
    mount_call_words::show(w, account, cnv, seq, kind, number, a)
}

// Writes a super block into lent bytes, and says whether zone 0 must first be finished. `given` (any number but 0) says that the record of zone 0
// states a capacity.
#[unsafe(no_mangle)]
pub extern "C" fn zonefs_format(
    block: u64,
    superblock: &mut [u8],
    label: &[u8],
    uuid: &[u8],
    features: u64,
    owner: u32,
    group: u32,
    mode: u32,
    bytes: &[u8],
    given: u32,
    a: &mut [u64],
) -> u64
    ensures { format_words block superblock.old (record { label = label.entry.now; uuid = uuid.now; features = features; owner = owner; group = group; mode = mode }) (not (eqb given 0)) bytes.now a.old ≡ record { number = result; block = superblock.new; answer = a.new } }
{
    format_words::format(
        block,
        superblock,
        label,
        uuid,
        features,
        owner,
        group,
        mode,
        bytes,
        given != 0,
        a,
    )
}

// The values of a super block, as they stand in it.
#[unsafe(no_mangle)]
pub extern "C" fn zonefs_super_fields(
    superblock: &[u8],
    label: &mut [u8],
    uuid: &mut [u8],
    a: &mut [u64],
) -> u64
    ensures { fields_words superblock.now label.old uuid.old a.old ≡ record { number = result; label = label.new; uuid = uuid.new; answer = a.new } }
{
    format_words::super_fields(superblock, label, uuid, a)
}

// The checksum of bytes. A super block's is that of its bytes with the checksum field zero.
#[unsafe(no_mangle)]
pub extern "C" fn zonefs_checksum(bytes: &[u8]) -> u32
    ensures { result ≡ crc32 bytes.now }
{
    crc32::checksum(bytes)
}
