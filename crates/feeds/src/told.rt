// What is told of a path that was checked.
use crate::line::{Line, shown};
use crate::paths::PathText;
use diagnostics::list::ReportList;
use diagnostics::own::OwnReports;
use diagnostics::reports::PathLoweringDiagnostic;
use naming::known::Meant;
use path::segments::{GenericArgs, PathSegment};
use std::io;

// A path that was checked, with its line and the number of its resolved segment.
#[derive(Drop)]
pub struct Told<'a> {
    pub line: Line<'a>,
    pub path: &'a PathText,
    pub segment: usize,
}

impl<'a> Told<'a> {
    fn name(&self, segment: usize) -> &'a str {
        self.path
            .names
            .get(segment)
            .map_or("?", |name| shown(name.of(self.line.text)))
    }

    // What the path names.
    fn tell_meant(&self, rt: &impl Print, meant: Option<Meant>) -> io::Result<()> {
        let number = self.line.number;
        let segment = self.segment;
        let name = self.name(segment);
        match meant {
            Some(Meant::Template(def)) => println!(rt;
                "{number}: segment {segment} `{name}` names definition {def}"
            ),
            Some(Meant::Builtin) => println!(rt;
                "{number}: segment {segment} `{name}` names a built-in type"
            ),
            Some(Meant::OwnType) => println!(rt;
                "{number}: segment {segment} `{name}` names the type itself"
            ),
            None => println!(rt;
                "{number}: names no template, so segment {segment} `{name}` is a module"
            ),
        }
    }

    fn tell_report(&self, rt: &impl Print, report: PathLoweringDiagnostic) -> io::Result<()> {
        let number = self.line.number;
        match report {
            PathLoweringDiagnostic::GenericArgsProhibited { segment, reason } => {
                let name = self.name(segment as usize);
                println!(rt;
                    "{number}: segment {segment} `{name}` is {reason} and takes no arguments, but a list is written behind it"
                )
            }
            _ => println!(rt; "{number}: another report"),
        }
    }

    // A list of reports is read by number: its trait shows no slice.
    fn tell_reports(&self, rt: &impl Print, reports: &OwnReports) -> io::Result<()> {
        for report in (0..reports.told()).filter_map(|i| reports.report(i)) {
            self.tell_report(rt, report)?;
        }
        Ok(())
    }

    // The arguments of the resolved segment.
    fn tell_arguments(&self, rt: &impl Print) -> io::Result<()> {
        let number = self.line.number;
        let Some(
            PathSegment {
                args: Some(GenericArgs { start, len, .. }),
            },
        ) = self.path.segments.get(self.segment)
        else {
            return Ok(());
        };
        let arguments = self.path.args.iter().zip(&self.path.places).enumerate();
        for (i, (arg, place)) in arguments.skip(*start as usize).take(*len as usize) {
            let text = shown(place.of(self.line.text));
            let form = arg.form;
            println!(rt; "{number}:   argument {i} `{text}` is {form}")?;
        }
        Ok(())
    }

    // The lists behind the resolved segment.
    fn tell_left(&self, rt: &impl Print) -> io::Result<()> {
        let number = self.line.number;
        let behind = self.segment.saturating_add(1);
        for (i, written) in self.path.segments.iter().enumerate().skip(behind) {
            if written.args.is_some() {
                let name = self.name(i);
                println!(rt;
                    "{number}: the list of segment {i} `{name}`, behind the resolved segment, is neither checked nor matched"
                )?;
            }
        }
        Ok(())
    }

    pub(crate) fn all(
        &self,
        rt: &impl Print,
        meant: Option<Meant>,
        reports: &OwnReports,
    ) -> io::Result<()> {
        self.tell_meant(rt, meant)?;
        self.tell_reports(rt, reports)?;
        self.tell_arguments(rt)?;
        self.tell_left(rt)
    }
}
