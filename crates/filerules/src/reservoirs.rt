// The rules of a reservoir.
ghost use Rattle.std.specs.Prelude.{◌≡◌, ◌<◌};
ghost use Rattle.records.specs.Records.{reservoir_count};
ghost use Rattle.filerules.specs.FileRules.{contents_rise, depths_ok, surveys_ok, reservoir_plain, reservoir_ok};

use numbers::bytes::{all_at_most, three_zeros};
use numbers::{all_below, in_range};
use records::bodies::Bodies;
use records::reservoirs::{content_at, depth_at, reservoir_at};

// Whether the storages of the four pairs rise strictly.
#[tactic(auto, unfolding(crate::specs::FileRules::contents_rise))]
fn contents_rise(reservoirs: &[u8], v: usize) -> bool
    requires { v < reservoir_count reservoirs.now }
    ensures { result ≡ contents_rise reservoirs.now v }
{
    all_below(3, |k| {
        content_at(reservoirs, v, k) < content_at(reservoirs, v, k + 1)
    })
}

#[tactic(auto, unfolding(crate::specs::FileRules::depths_ok))]
fn depths_ok(reservoirs: &[u8], v: usize) -> bool
    requires { v < reservoir_count reservoirs.now }
    ensures { result ≡ depths_ok reservoirs.now v }
{
    all_below(12, |m| depth_at(reservoirs, v, m) <= 1000)
}

// The area-capacity table starts empty and rises.
#[tactic(auto, using(general::proofs::Tests::joins), unfolding(crate::specs::FileRules::surveys_ok, crate::specs::FileRules::areas_ok, records::specs::Records::area_at, numbers::specs::Bytes::all_at_most))]
fn surveys_ok(reservoirs: &[u8], v: usize) -> bool
    requires { v < reservoir_count reservoirs.now }
    ensures { result ≡ surveys_ok reservoirs.now v }
{
    (content_at(reservoirs, v, 0) == 0)
        & contents_rise(reservoirs, v)
        // the areas of the four pairs
        & all_at_most(reservoirs, 68 * v + 16, 8, 4, 1000000)
}

// The rules of the record's first 12 bytes.
#[tactic(auto, using(general::proofs::Tests::joins), unfolding(crate::specs::FileRules::reservoir_plain))]
fn plain_ok(bodies: &Bodies<'_>, v: usize) -> bool
    requires { v < reservoir_count bodies.now.reservoirs.now }
    ensures { result ≡ reservoir_plain bodies.now.stations.now bodies.now.reservoirs.now v }
{
    let reservoirs = bodies.reservoirs;
    let x = reservoir_at(reservoirs, v);
    (usize::from(x.row) < bodies.rows())
        & three_zeros(reservoirs, 68 * v + 1)
        & in_range(1, x.capacity, 2000000000)
        & (x.start <= x.capacity)
}

#[tactic(auto, using(general::proofs::Tests::joins), unfolding(crate::specs::FileRules::reservoir_ok))]
pub fn reservoir_ok(bodies: &Bodies<'_>, v: usize) -> bool
    requires { v < reservoir_count bodies.now.reservoirs.now }
    ensures { result ≡ reservoir_ok bodies.now.stations.now bodies.now.reservoirs.now v }
{
    plain_ok(bodies, v) & surveys_ok(bodies.reservoirs, v) & depths_ok(bodies.reservoirs, v)
}
