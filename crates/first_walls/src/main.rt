// The walls that two lines find in a bored block: the first answer of `./try`, before anything is proved.
#![tactic(auto)]

ghost use Rattle.std.specs.Prelude.{◌<◌};

use line_lists::Crossings;
use line_writing::lists::WallLists;
use outcome::Refusal;
use std::io;

fn name(rt: &impl Print, sheet: &[u8], shape: u16, end: &[u8]) -> io::Result<()> {
    rt.write_all(job_name::name(false, b"", sheet, shape as usize))?;
    rt.write_all(end)
}

fn wall(
    rt: &impl Print,
    sheet: &[u8],
    k: usize,
    lines: &[u32; 6],
    starts: &[i32; 6],
    ends: &[i32; 6],
    start_shapes: &[u16; 6],
    end_shapes: &[u16; 6],
) -> io::Result<()>
    requires { k < 6 }
{
    let line = lines[k];
    let start = starts[k];
    let end = ends[k];
    print!(rt; "{line},{start},{end},")?;
    name(rt, sheet, start_shapes[k], b",")?;
    name(rt, sheet, end_shapes[k], b"\n")
}

// Line 0 meets nothing; line 1 goes through block and bore, line 2 through the block alone.
fn classify(
    sheet: &[u8],
    lines: &mut [u32; 6],
    starts: &mut [i32; 6],
    ends: &mut [i32; 6],
    start_shapes: &mut [u16; 6],
    end_shapes: &mut [u16; 6],
) -> Result<usize, Refusal> {
    let in_air = [0u8; 6];
    let line = [1u32, 1, 1, 1, 2, 2];
    let position = [0i32, 40000, 60000, 100000, 0, 100000];
    let shape = [0u16, 1, 1, 0, 0, 0];
    let x = Crossings {
        line: &line,
        at: &position,
        shape: &shape,
    };
    let mut walls = WallLists {
        lines,
        starts,
        ends,
        start_shapes,
        end_shapes,
    };
    job_classify::classify(false, b"", sheet, &in_air, x, &mut walls)
}

// A write that fails ends the program with its error.
fn main(rt: HostRuntime) -> io::Result<()> {
    let sheet =
        b"\x01\x00\x02\x00\x01\x02\x00\x05Block\x02\x00\x04Bore\x03\x00\x06\x00\x00\x00\x01\xff\xf2";
    let mut lines = [0u32; 6];
    let mut starts = [0i32; 6];
    let mut ends = [0i32; 6];
    let mut start_shapes = [0u16; 6];
    let mut end_shapes = [0u16; 6];
    let walls = classify(
        sheet,
        &mut lines,
        &mut starts,
        &mut ends,
        &mut start_shapes,
        &mut end_shapes,
    )
    .unwrap_or(0);
    println!(rt; "line,start,end,start_shape,end_shape")?;
    if walls == 3 {
        wall(
            &rt,
            sheet,
            0,
            &lines,
            &starts,
            &ends,
            &start_shapes,
            &end_shapes,
        )?;
        wall(
            &rt,
            sheet,
            1,
            &lines,
            &starts,
            &ends,
            &start_shapes,
            &end_shapes,
        )?;
        wall(
            &rt,
            sheet,
            2,
            &lines,
            &starts,
            &ends,
            &start_shapes,
            &end_shapes,
        )?;
    }
    Ok(())
}
