// One of many lines: read as it is lent, judged, and what it has of its shapes gathered.
#![tactic(auto)]

ghost use Rattle.std.specs.Prelude.{◌≡◌, ◌*◌, ◌≤◌, length, drop};
ghost use Rattle.cross_drawn.specs.Lent.{probe_from, probes_of};
ghost use Rattle.cross_drawn.specs.Gathered.{LineEnds};

use cross_line::Drawing;
use cross_shapes::Probe;

// How many lines there are: a line begun counts.
#[tactic(auto, using(crate::proofs::ProbeLaws::lines_counted))]
pub fn line_count(lines: &[f64]) -> usize
    ensures { result ≡ length (probes_of lines.now) }
{
    lines.len().div_ceil(6)
}

pub fn probe_at(lines: &[f64], k: usize) -> Probe
    requires { k ≤ 4294967296 }
    ensures { result ≡ probe_from (drop (6 * k) lines.now) }
{
    let n = 6 * k;
    Probe {
        ox: cross_line::number_at(lines, n),
        oy: cross_line::number_at(lines, n + 1),
        oz: cross_line::number_at(lines, n + 2),
        dx: cross_line::number_at(lines, n + 3),
        dy: cross_line::number_at(lines, n + 4),
        dz: cross_line::number_at(lines, n + 5),
    }
}

// One line judged, and what it has of its shapes gathered: how many crossings there are, or the place of the first fault.
pub fn one_line(
    probe: Probe,
    drawing: Drawing<'_>,
    bytes: &mut [u8],
    keys: &mut [u64],
) -> Result<usize, usize>
    requires { (length drawing.kinds.now ≤ 256) × (length bytes.old ≡ 256) × (length keys.old ≡ 512) }
    ensures { LineEnds drawing.entry.kinds.now drawing.entry.numbers.now probe bytes.new keys.new result }
{
    if !cross_line::good_probe(probe) {
        return Err(cross_line::LINE);
    }
    let n = drawing.kinds.len();
    cross_line::gather(|i| cross_line::meet_at(probe, drawing, i), n, bytes, keys)
}
