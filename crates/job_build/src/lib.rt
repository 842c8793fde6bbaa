// The job of building: the contracted tree of a sheet's formula, its records given to the caller's lists.
#![tactic(auto)]

ghost use Rattle.std.specs.Prelude.{◌≤◌, length};
ghost use Rattle.formula.specs.Formula.{Formula};
ghost use Rattle.tree_dwarf.specs.Dwarfed.{Dwarfed};
ghost use Rattle.sheet.specs.Sheet.{sheets_of};
ghost use Rattle.job_build.specs.Building.{giving, building};
ghost use Rattle.job_build.specs.Built.{Built as Promise};

use contraction::{CODES, NODES, Records};
use outcome::Refusal;
use tree_dwarf::Figures;

// Gives what is built to the lent lists, where there is room in each.
#[tactic(auto, unfolding(crate::specs::Building::giving))]
fn give_built(
    records: &Records,
    built: Figures,
    kinds: &mut [u16],
    firsts: &mut [u16],
    seconds: &mut [u16],
) -> Result<Figures, Refusal>
    requires { built.nodes ≤ NODES }
    ensures { (g : Formula) → Dwarfed g records.now built
        → Promise (giving g (length kinds.old) (length firsts.old) (length seconds.old))
        kinds.old firsts.old seconds.old result kinds.new firsts.new seconds.new }
{
    let n = built.nodes;
    outcome::room(n, kinds.len())?;
    outcome::room(n, firsts.len())?;
    outcome::room(n, seconds.len())?;
    kinds[..n].copy_from_slice(&records.kinds[..n]);
    firsts[..n].copy_from_slice(&records.firsts[..n]);
    seconds[..n].copy_from_slice(&records.seconds[..n]);
    Ok(built)
}

// Builds the contracted tree of the sheets' formula and gives its records.
#[tactic(auto, unfolding(crate::specs::Building::building))]
pub fn build(
    fitted: bool,
    fittings: &[u8],
    sheet: &[u8],
    kinds: &mut [u16],
    firsts: &mut [u16],
    seconds: &mut [u16],
) -> Result<Figures, Refusal>
    ensures { Promise (building (sheets_of fitted fittings.now sheet.now) (length kinds.old) (length firsts.old) (length seconds.old))
        kinds.old firsts.old seconds.old result kinds.new firsts.new seconds.new }
{
    let mut codes = [0u16; CODES];
    let mut records = Records {
        kinds: [0; NODES],
        firsts: [0; NODES],
        seconds: [0; NODES],
    };
    let prepared = accepting::prepare(fitted, fittings, sheet, &mut codes, &mut records)?;
    give_built(&records, prepared.built, kinds, firsts, seconds)
}
