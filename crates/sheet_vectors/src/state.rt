// A sheet as a line shows it.
use lines::Sheet;
use run::Run;
use vectors::Fields;

// The sheet that nine fields show.
pub(crate) fn read(mut fields: Fields) -> Sheet {
    let refusal = fields.number();
    let opened = fields.number() == 1;
    let ended = fields.number() == 1;
    let first = fields.number();
    let mut run = Run {
        size: fields.size(),
        next: fields.number(),
        end: fields.number(),
        figure: fields.number(),
        places: [0; 70],
    };
    vectors::read(fields.text(), &mut run.places);
    Sheet {
        refusal,
        opened,
        ended,
        first,
        run,
    }
}

// Prints the nine fields, with all seventy places.
pub(crate) fn show(sheet: Sheet) {
    let run = sheet.run;
    vectors::decimal(sheet.refusal);
    vectors::decimal(u64::from(sheet.opened));
    vectors::decimal(u64::from(sheet.ended));
    vectors::decimal(sheet.first);
    vectors::decimal(run.size as u64);
    vectors::decimal(run.next);
    vectors::decimal(run.end);
    vectors::decimal(run.figure);
    vectors::items(&run.places);
    vectors::end_line();
}
