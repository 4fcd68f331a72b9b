// The rules of a right. Bodies, place and record are three and no struct: most rules read the record alone, and those that read more go by the
// place, as the definitions do. That there are at most four points is asked by each rule that reads points: a record is read before they are counted,
// so that its type can't say it.
ghost use Rattle.std.specs.Prelude.{List, ◌≡◌, ℕ, ◌≤◌, ◌<◌, MatchOption};
ghost use Rattle.general.specs.Sums.{sum_to};
ghost use Rattle.records.specs.Records.{rows_of, reservoir_count, reservoir_record, pattern_count, right_count, return_percent};
ghost use Rattle.filerules.specs.FileRules.{date_ok, kind_known, limit_ok, heading_ok, source_ok, point_ok, each_point_ok, points_ok, diversion_ok, returns_ok, unused_ok, earlier, right_rises, right_ok};
ghost use Rattle.records.specs.Table.{GoodRows, TableFor, ReservoirsOn};

use numbers::bytes::{all_at_most, byte_sum};
use numbers::{all_below, in_range};
use records::bodies::Bodies;
use records::network::RowsBelow;
use records::reservoirs::reservoir_at;
use records::rights::{Kind, RightRecord, kind_byte, return_percent, return_row, right_at};

#[tactic(auto, using(general::proofs::Tests::joins), unfolding(crate::specs::FileRules::date_ok))]
fn date_ok(date: u32) -> bool
    ensures { result ≡ date_ok date }
{
    in_range(18000101, date, 20991231) | (date == 99999999)
}

// Whether a right's kind is one of the four. A record has a kind whatever its byte is, so that the byte itself is asked.
#[tactic(auto, unfolding(crate::specs::FileRules::kind_known))]
fn kind_known(rights: &[u8], i: usize) -> bool
    requires { i < right_count rights.now }
    ensures { result ≡ kind_known rights.now i }
{
    in_range(1, u32::from(kind_byte(rights, i)), 4)
}

#[tactic(auto, unfolding(crate::specs::FileRules::limit_ok))]
fn limit_ok(kind: Kind, limit: u32) -> bool
    ensures { result ≡ limit_ok kind limit }
{
    match kind {
        Kind::Direct | Kind::Project | Kind::Instream => limit == 0,
        Kind::Storage => in_range(1, limit, 2000000000),
    }
}

// The rules that the record shows by itself, in a basin of n rows.
#[tactic(auto, using(general::proofs::Tests::joins), unfolding(crate::specs::FileRules::heading_ok))]
fn heading_ok(n: usize, r: RightRecord) -> bool
    ensures { result ≡ heading_ok n r }
{
    in_range(1, r.permit, 999999999)
        & date_ok(r.date)
        & (usize::from(r.row) < n)
        & (r.points <= 4)
        & (r.months < 4096)
        & limit_ok(r.kind, r.limit)
}

// The row of reservoir v, where there is one.
fn reservoir_row(reservoirs: &[u8], v: usize) -> Option<usize>
    ensures { MatchOption result (reservoir_count reservoirs.now ≤ v) (λ row. (v < reservoir_count reservoirs.now) × (row ≡ (reservoir_record reservoirs.now v).row)) }
{
    (v < reservoirs.len() / 68).then(|| usize::from(reservoir_at(reservoirs, v).row))
}

// The reservoir that the right names, and where the right stands to it. Only a project right needs a walk down the river. The promise is for the
// stations that the table was made from.
#[tactic(auto, unfolding(crate::specs::FileRules::source_ok))]
fn source_ok(below: &RowsBelow, reservoirs: &[u8], r: RightRecord) -> bool
    requires { ReservoirsOn reservoirs.now }
    ensures { (st : List ℕ) → TableFor st below.now.rows → GoodRows st reservoirs.now → result ≡ source_ok r.kind st reservoirs.now r }
{
    let kind = r.kind;
    let v = usize::from(r.reservoir);
    let row = usize::from(r.row);
    match kind {
        Kind::Direct | Kind::Instream => r.reservoir == 255,
        Kind::Project => reservoir_row(reservoirs, v).is_some_and(|from| below.on_path(from, row)),
        Kind::Storage => reservoir_row(reservoirs, v) == Some(row),
    }
}

#[tactic(auto, using(general::proofs::Tests::joins), unfolding(crate::specs::FileRules::point_ok))]
fn point_ok(n: usize, from: usize, row: usize, percent: u8) -> bool
    ensures { result ≡ point_ok n from row percent }
{
    (from <= row) & (row < n) & in_range(1, u32::from(percent), 100)
}

// Whether the first pairs, as many as there are points, are good return points.
#[tactic(auto, unfolding(crate::specs::FileRules::each_point_ok))]
fn each_point_ok(bodies: &Bodies<'_>, i: usize, r: RightRecord) -> bool
    requires { (i < right_count bodies.now.rights.now) × (r.points ≤ 4) }
    ensures { result ≡ each_point_ok (rows_of bodies.now.stations.now) r.row bodies.now.rights.now i r.points }
{
    let n = bodies.rows();
    let from = usize::from(r.row);
    let rights = bodies.rights;
    all_below(usize::from(r.points), |k| {
        let row = usize::from(return_row(rights, i, k));
        point_ok(n, from, row, return_percent(rights, i, k))
    })
}

// The sum of the percents of the return points.
#[tactic(auto, unfolding(numbers::specs::Bytes::byte_sum, records::specs::Records::return_percent))]
fn percent_sum(rights: &[u8], i: usize, points: usize) -> u32
    requires { (i < right_count rights.now) × (points ≤ 4) }
    ensures { result ≡ sum_to points (return_percent rights.now i) }
{
    byte_sum(rights, 76 * i + 69, 2, points)
}

// The rules of a right that has return points.
#[tactic(auto, using(general::proofs::Tests::joins), unfolding(crate::specs::FileRules::points_ok))]
fn points_ok(bodies: &Bodies<'_>, i: usize, r: RightRecord) -> bool
    requires { (i < right_count bodies.now.rights.now) × (r.points ≤ 4) }
    ensures { result ≡ points_ok (rows_of bodies.now.stations.now) (pattern_count bodies.now.patterns.now) bodies.now.rights.now i r }
{
    (r.efficiency <= 100)
        & (usize::from(r.pattern) < bodies.pattern_count())
        & each_point_ok(bodies, i, r)
        & (percent_sum(bodies.rights, i, usize::from(r.points)) == 100)
}

// The rules of what a diversion consumes and returns. One without return points consumes all.
#[tactic(auto, using(general::proofs::Tests::joins), unfolding(crate::specs::FileRules::diversion_ok))]
fn diversion_ok(bodies: &Bodies<'_>, i: usize, r: RightRecord) -> bool
    requires { (i < right_count bodies.now.rights.now) × (r.points ≤ 4) }
    ensures { result ≡ diversion_ok (rows_of bodies.now.stations.now) (pattern_count bodies.now.patterns.now) bodies.now.rights.now i r }
{
    if r.points == 0 {
        return (r.efficiency == 100) & (r.pattern == 255);
    }
    points_ok(bodies, i, r)
}

#[tactic(auto, using(general::proofs::Tests::joins), unfolding(crate::specs::FileRules::returns_ok, crate::specs::FileRules::undiverted_ok))]
fn returns_ok(bodies: &Bodies<'_>, i: usize, r: RightRecord) -> bool
    requires { (i < right_count bodies.now.rights.now) × (r.points ≤ 4) }
    ensures { result ≡ returns_ok r.kind (rows_of bodies.now.stations.now) (pattern_count bodies.now.patterns.now) bodies.now.rights.now i r }
{
    let kind = r.kind;
    match kind {
        Kind::Direct | Kind::Project => diversion_ok(bodies, i, r),
        Kind::Instream | Kind::Storage => {
            (r.efficiency == 0) & (r.pattern == 255) & (r.points == 0)
        }
    }
}

// Whether pairs that are no return points are zero.
#[tactic(auto, using(general::proofs::Tests::joins), unfolding(crate::specs::FileRules::unused_ok))]
fn unused_ok(rights: &[u8], i: usize, points: usize) -> bool
    requires { i < right_count rights.now }
    ensures { result ≡ unused_ok rights.now i points }
{
    all_below(4, |k| {
        (k < points) | ((return_row(rights, i, k) == 0) & (return_percent(rights, i, k) == 0))
    })
}

// Whether one right comes before another in the order of service.
#[tactic(auto, using(general::proofs::Tests::joins), unfolding(crate::specs::FileRules::earlier))]
fn is_earlier(a: RightRecord, b: RightRecord) -> bool
    ensures { result ≡ earlier a b }
{
    (a.date, a.permit) < (b.date, b.permit)
}

// The first right has none before it: one line, as `number_rises` of stations.
#[tactic(auto, unfolding(crate::specs::FileRules::right_rises))]
fn right_rises(rights: &[u8], i: usize) -> bool
    requires { i < right_count rights.now }
    ensures { result ≡ right_rises rights.now i }
{
    i == 0 || is_earlier(right_at(rights, i - 1), right_at(rights, i))
}

// All rules of one right.
#[tactic(auto, using(general::proofs::Tests::joins), unfolding(crate::specs::FileRules::right_ok, crate::specs::FileRules::amounts_ok, records::specs::Records::amount_at, numbers::specs::Bytes::all_at_most))]
pub fn right_ok(bodies: &Bodies<'_>, below: &RowsBelow, i: usize) -> bool
    requires { (i < right_count bodies.now.rights.now) × TableFor bodies.now.stations.now below.now.rows × GoodRows bodies.now.stations.now bodies.now.reservoirs.now }
    ensures { result ≡ right_ok bodies.now.stations.now bodies.now.reservoirs.now (pattern_count bodies.now.patterns.now) bodies.now.rights.now i }
{
    let rights = bodies.rights;
    // The kind and the number of points are settled before any rule goes by them.
    if !kind_known(rights, i) {
        return false;
    }
    let r = right_at(rights, i);
    if !heading_ok(bodies.rows(), r) {
        return false;
    }
    source_ok(below, bodies.reservoirs, r)
        & returns_ok(bodies, i, r)
        & unused_ok(rights, i, usize::from(r.points))
        // each month's amount
        & all_at_most(rights, 76 * i + 20, 4, 12, 1000000000)
        & right_rises(rights, i)
}
