// The packing of a survey and a reading into a position, and back.
use case_fields::Field::Number;
use case_fields::Line;
use case_report::show;
use std::io;
use survey::{Packed, Reading, Survey, pack, split};

pub fn survey_line(rt: &impl Print, line: &Line) -> io::Result<bool> {
    match (line.word, line.fields()) {
        (b"pack", [Number(survey), Number(reading)]) => {
            match pack(Survey(*survey), Reading(*reading)) {
                Ok(position) => show(rt, b"pack 00 %8\n", &[position.0])?,
                Err(why) => show(rt, b"pack %1\n", &[u64::from(u8::from(why))])?,
            }
        }
        (b"split", [Number(position)]) => {
            let place = split(Packed(*position));
            show(
                rt,
                b"survey %d, reading %d\n",
                &[place.survey.0, place.reading.0],
            )?;
        }
        _ => return Ok(false),
    }
    Ok(true)
}
