// The program: reads the description of a result page and says where everything on it stands.
#![tactic(auto)]

use geometry::AbsoluteAxis;
use page_report::axis_report::AxisReport;
use page_text::axis_alignment::align_axis;
use page_text::page_description::ContainerDescription;
use page_text::reader::read_page;
use std::io;
use std::io::Read;
use tracks::grid_track::GridTrack;

fn print_axis(
    rt: &HostRuntime,
    container: &ContainerDescription,
    axis: AbsoluteAxis,
    tracks: &mut [GridTrack],
) -> io::Result<()> {
    let alignment = align_axis(container, axis, tracks);
    let report = AxisReport {
        axis,
        alignment,
        tracks,
    };
    print!(rt; "{report}")
}

fn main(rt: HostRuntime) -> io::Result<()> {
    let mut input = Vec::new(rt.alloc());
    rt.stdin().read_to_end(&mut input)?;
    match read_page(rt.alloc(), &input) {
        Ok(mut page) => {
            print_axis(
                &rt,
                &page.container,
                AbsoluteAxis::Horizontal,
                &mut page.columns,
            )?;
            print_axis(&rt, &page.container, AbsoluteAxis::Vertical, &mut page.rows)
        }
        Err(fault) => println!(rt; "{fault}"),
    }
}
