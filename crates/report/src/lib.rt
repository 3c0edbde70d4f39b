// A zone report: its header, a reader that holds the lent report and its next zone number, and the pass that checks its zones and
// counts its files. Each function over the reader is thin; `report_zone` does the work. Callers read by `read_zone`, whose parameters are
// plain.
#![tactic(auto)]

ghost use Rattle.std.specs.Prelude.{◌≡◌, ◌≤◌, ◌<◌, length, IfOk};
ghost use Rattle.types.specs.Verdicts.{giving};
ghost use Rattle.files.specs.Walk.{begun, walked};
ghost use Rattle.files.specs.Facts.{BoundedWalk};
ghost use Rattle.report.specs.Report.{header_bytes, zone_count, capacity_given, good_fields, good_header, report_zone, zones_of, zones_check, report_read};
ghost use Rattle.report.specs.Facts.{Framed};

use files::Walk;
use types::Refusal;
use types::units::MOST_ZONES;
use zones::{ZONE_BYTES, Zone};

// A header's bytes, and where its fields stand.
pub const HEADER_BYTES: usize = 16;

const SECTOR_AT: usize = 0;

const COUNT_AT: usize = 8;

const FLAGS_AT: usize = 12;

// The flag of given capacities. There is no other.
const CAPACITY_GIVEN: u32 = 1;

// It stays a report and a number with thin functions over them, as docs/TRACE.md tells of its promise.
#[derive(Clone, Copy)]
pub struct Reader<'a> {
    pub report: &'a [u8],
    pub next: usize,
}

// The number of zones that the header states.
pub fn zone_count(b: &[u8]) -> usize
    requires { header_bytes ≤ length b.now }
    ensures { result ≡ zone_count b.now }
{
    wire::u32_at(b, COUNT_AT) as usize
}

// The report states each zone's capacity.
pub fn capacity_given(b: &[u8]) -> bool
    requires { header_bytes ≤ length b.now }
    ensures { result ≡ capacity_given b.now }
{
    wire::u32_at(b, FLAGS_AT) == CAPACITY_GIVEN
}

// The header's fields are right.
pub fn good_fields(b: &[u8]) -> bool
    requires { header_bytes ≤ length b.now }
    ensures { result ≡ good_fields b.now }
{
    let sector = wire::u64_at(b, SECTOR_AT);
    let count = zone_count(b);
    let flags = wire::u32_at(b, FLAGS_AT);
    (sector == 0) & (1 <= count) & (count <= MOST_ZONES) & (flags <= CAPACITY_GIVEN)
}

// The report's header and its length are right.
#[tactic(auto, unfolding(crate::specs::Report::good_header))]
fn good_header(b: &[u8]) -> bool
    ensures { result ≡ good_header b.now }
{
    if HEADER_BYTES <= b.len() {
        let good = good_fields(b);
        let count = wire::u32_at(b, COUNT_AT) as usize;
        good & (b.len() == HEADER_BYTES + ZONE_BYTES * count)
    } else {
        false
    }
}

// The zone of number `i` of a report whose header is good.
fn report_zone(b: &[u8], i: usize) -> Zone
    requires { Framed b.now × (i < zone_count b.now) }
    ensures { result ≡ report_zone b.now i }
{
    let given = capacity_given(b);
    zones::zone_at(b, HEADER_BYTES + ZONE_BYTES * i, given)
}

// A reader whose next zone is the report's first.
pub fn new<'a>(report: &'a [u8]) -> Reader<'a>
    ensures { (result.report ≡ report.entry) × (result.next ≡ 0) }
{
    Reader { report, next: 0 }
}

// The reader, moved on: its next zone is the one of number `i`.
pub fn moved<'a>(reader: Reader<'a>, i: usize) -> Reader<'a>
    ensures { (result.report ≡ reader.entry.report) × (result.next ≡ i) }
{
    Reader {
        report: reader.report,
        next: i,
    }
}

// The reader's next zone.
pub fn next<'a>(reader: Reader<'a>) -> Zone
    requires { Framed reader.report.now × (reader.next < zone_count reader.report.now) }
    ensures { result ≡ report_zone reader.entry.report.now reader.entry.next }
{
    report_zone(reader.report, reader.next)
}

// The zone of number `i` of a report whose header is good, read by a reader.
pub fn read_zone(report: &[u8], i: usize) -> Zone
    requires { Framed report.now × (i < zone_count report.now) }
    ensures { result ≡ report_zone report.now i }
{
    next(moved(new(report), i))
}

// Checks each zone where the one before it ended, and takes it into the walk. Stops at the first that has a fault.
#[tactic(auto, unfolding(crate::specs::Report::zones_check, crate::specs::Report::zones_of, files::specs::Walk::walked))]
fn check_zones(report: &[u8], unit: u64, aggregate: bool) -> Result<Walk, Refusal>
    requires { Framed report.now × (0 < unit) }
    ensures value { result ≡ giving (zones_check unit 0 0 (zones_of report.now)) (walked aggregate begun (zones_of report.now)) }
    ensures bounded { IfOk result BoundedWalk }
{
    let count = zone_count(report);
    let mut walk = files::begin();
    // It stays a `while`: the number is the walk's own, and a `for` would count it a second time.
    while walk.number < count {
        let z = read_zone(report, walk.number);
        let fault = zones::zone_fault(z, walk.expected, unit);
        if !zones::is_faultless(fault) {
            return Err(Refusal::BadZone(walk.number as u32, fault));
        }
        walk = files::step(aggregate, walk, z);
    }
    Ok(walk)
}

// The checks of a report: its header and length, then each zone. What passes them gives the walk over its zones, to the end.
pub fn check_report(report: &[u8], unit: u64, aggregate: bool) -> Result<Walk, Refusal>
    requires { 0 < unit }
    ensures value { result ≡ report_read unit aggregate report.now }
    ensures bounded { IfOk result BoundedWalk }
{
    if !good_header(report) {
        return Err(Refusal::BadReport);
    }
    check_zones(report, unit, aggregate)
}
