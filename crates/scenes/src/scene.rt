//! A scenario, and what the program must write for it.
//!
//! Each scenario of a file has a line `== ` with its name, and then its lines. After these, a line `-- prints` is
//! followed by the lines that are printed: those of standard output, and then those of standard error. There the
//! scenario's file is called `scene`. Blank lines and lines that begin with `#` belong to no scenario after that.
//!
//! Other lines may be among the scenario's:
//!
//! - `-- fails`: the status is 1, and not 0.
//! - `-- expanded`: its script is printed, and it is not run.
//! - `-- goes on`: it is run with `--go-on`.
//! - `-- set NAME=WORD`: it is run with this setting.
//! - `-- cuts N N`: these are the lengths of its lists with `until`.
//! - `-- csv`, `-- json`, `-- chart`, `-- unmet`: this is printed of its run.
//! - `-- every N`, `-- groups PATH`, `-- depth N`: with these rows and groups.
//! - `-- vary NAME=VALUES`: it is run once for each value. A text that gives no values prints its fault.

use simulation::{Asked, Prints, expand, read_values, simulate, vary};
use std::alloc::{AllocError, Global};
use std::io;
use std::io::Write;
use std::thread::Threads;

/// The name of the file of a scenario.
const FILE: &str = "scene";

/// The part of a scene that a line belongs to.
#[derive(Clone, Copy)]
enum Part {
    Scenario,
    /// What the program prints.
    Printed,
}

/// A scenario, with what the program must write for it.
#[derive(Drop)]
pub struct Scene {
    name: String,
    scenario: String,
    printed: String,
    fails: bool,
    goes_on: bool,
    expanded: bool,
    settings: Vec<String>,
    cuts: Vec<u64>,
    vary: Option<String>,
    prints: Prints,
    every: u32,
    groups: Vec<String>,
    depth: Option<u32>,
    /// The part to which the next line of the file belongs.
    next: Part,
}

fn add_line(text: &mut String, line: &str) -> Result<(), AllocError> {
    text.push_str(line)?;
    text.push('\n')
}

/// The words, lent.
fn words_of<'a>(alloc: Global, texts: &'a [String]) -> Result<Vec<&'a str>, AllocError> {
    let mut words = Vec::new(alloc);
    for text in texts {
        words.push(text.as_str())?;
    }
    Ok(words)
}

impl Scene {
    fn new(alloc: Global, name: &str) -> Result<Scene, AllocError> {
        Ok(Scene {
            name: String::from_str(alloc, name)?,
            scenario: String::new(alloc),
            printed: String::new(alloc),
            fails: false,
            goes_on: false,
            expanded: false,
            settings: Vec::new(alloc),
            cuts: Vec::new(alloc),
            vary: None,
            prints: Prints::Report,
            every: 1,
            groups: Vec::new(alloc),
            depth: None,
            next: Part::Scenario,
        })
    }

    /// Takes a line of the file.
    fn add(&mut self, alloc: Global, line: &str) -> Result<(), AllocError> {
        match line {
            "-- prints" => self.next = Part::Printed,
            "-- fails" => self.fails = true,
            "-- goes on" => self.goes_on = true,
            "-- expanded" => self.expanded = true,
            "-- csv" => self.prints = Prints::Csv,
            "-- json" => self.prints = Prints::Json,
            "-- chart" => self.prints = Prints::Chart,
            "-- unmet" => self.prints = Prints::Unmet,
            _ => return self.add_other(alloc, line),
        }
        Ok(())
    }

    fn add_other(&mut self, alloc: Global, line: &str) -> Result<(), AllocError> {
        if let Some(setting) = line.strip_prefix("-- set ") {
            self.settings.push(String::from_str(alloc, setting)?)?;
            return Ok(());
        }
        if let Some(text) = line.strip_prefix("-- vary ") {
            self.vary = Some(String::from_str(alloc, text)?);
            return Ok(());
        }
        if let Some(cuts) = line.strip_prefix("-- cuts ") {
            for cut in cuts.split(' ') {
                self.cuts.push(cut.parse().unwrap_or(0))?;
            }
            return Ok(());
        }
        if let Some(group) = line.strip_prefix("-- groups ") {
            self.groups.push(String::from_str(alloc, group)?)?;
            return Ok(());
        }
        if let Some(every) = line.strip_prefix("-- every ") {
            self.every = every.parse().unwrap_or(0);
            return Ok(());
        }
        if let Some(depth) = line.strip_prefix("-- depth ") {
            self.depth = depth.parse().ok();
            return Ok(());
        }
        match self.next {
            Part::Scenario => add_line(&mut self.scenario, line),
            Part::Printed if line.is_empty() || line.starts_with('#') && !self.expanded => Ok(()),
            Part::Printed => add_line(&mut self.printed, line),
        }
    }

    /// Runs the scenario as it is asked for, once or for each value. The result is the status.
    fn simulate<R: Threads + Sync>(
        &self,
        rt: &R,
        alloc: Global,
        out: &mut Vec<u8>,
        err: &mut Vec<u8>,
    ) -> io::Result<u8> {
        let text = self.scenario.as_bytes();
        let settings = words_of(alloc, &self.settings)?;
        let groups = words_of(alloc, &self.groups)?;
        let asked = Asked {
            name: FILE,
            settings: settings.as_slice(),
            go_on: self.goes_on,
            prints: self.prints,
            every: self.every,
            groups: groups.as_slice(),
            depth: self.depth,
        };
        let Some(values) = &self.vary else {
            return Ok(simulate(alloc, &asked, text, out, err));
        };
        match read_values(alloc, values.as_str()) {
            Ok(values) => Ok(vary(rt, alloc, &asked, &values, text, out, err)),
            Err(fault) => {
                writeln!(err, "{fault:?}")?;
                Ok(1)
            }
        }
    }

    /// Runs or expands the scenario, and adds what is printed. The result is the status.
    fn carry_out<R: Threads + Sync>(
        &self,
        rt: &R,
        alloc: Global,
        out: &mut Vec<u8>,
        err: &mut Vec<u8>,
    ) -> io::Result<u8> {
        if !self.expanded {
            return self.simulate(rt, alloc, out, err);
        }
        let text = self.scenario.as_bytes();
        let settings = words_of(alloc, &self.settings)?;
        let settings = settings.as_slice();
        Ok(expand(alloc, FILE, text, settings, self.cuts.as_slice(), out, err))
    }

    /// Carries out the scenario, and reports the result if it is not what it must be.
    pub fn run<R: Threads + Sync, W: Write>(
        &self,
        rt: &R,
        alloc: Global,
        file: &str,
        to: &mut W,
    ) -> io::Result<()> {
        let mut out = Vec::new(alloc);
        let mut err = Vec::new(alloc);
        let status = self.carry_out(rt, alloc, &mut out, &mut err)?;
        out.extend_from_slice(&err)?;
        let wanted = if self.fails { 1 } else { 0 };
        if status == wanted && out.as_slice() == self.printed.as_bytes() {
            return Ok(());
        }
        writeln!(to, "{file}: {}: status {status}", self.name)?;
        to.write_all(&out)
    }
}

/// The scenarios of a file.
pub fn read_scenes(alloc: Global, text: &str) -> Result<Vec<Scene>, AllocError> {
    let mut scenes: Vec<Scene> = Vec::new(alloc);
    for line in text.lines() {
        if let Some(name) = line.strip_prefix("== ") {
            scenes.push(Scene::new(alloc, name)?)?;
        } else if let Some(scene) = scenes.last_mut() {
            scene.add(alloc, line)?;
        }
    }
    Ok(scenes)
}
