//! Cells in lines, with the words of Liberty.
use crate::expressions::put_expr;
use lp_attributes::text_of;
use lp_expr::Expr;
use lp_model::{
    Action, Cell, Direction, PgKind, PgPin, Pin, PinUse, RetClass, Roles, ShifterKind, StateGroup,
    StateKind, VoltageRange,
};
use lp_text::Names;
use std::fmt::Write;
use std::test::Fail;

/// Writes an expression in postfix order behind a word.
fn put_function(out: &mut String, names: &Names, word: &str, e: &Expr) -> Result<(), Fail> {
    write!(out, " {word}")?;
    put_expr(out, names, e)?;
    write!(out, ";")?;
    Ok(())
}

fn put_if_any(out: &mut String, names: &Names, word: &str, e: &Option<Expr>) -> Result<(), Fail> {
    match e {
        Some(e) => put_function(out, names, word, e),
        None => Ok(()),
    }
}

fn word_of_kind(kind: PgKind) -> &'static str {
    match kind {
        PgKind::PrimaryPower => "primary_power",
        PgKind::PrimaryGround => "primary_ground",
        PgKind::BackupPower => "backup_power",
        PgKind::BackupGround => "backup_ground",
        PgKind::InternalPower => "internal_power",
        PgKind::InternalGround => "internal_ground",
        PgKind::Nwell => "nwell",
        PgKind::Pwell => "pwell",
        PgKind::Deepnwell => "deepnwell",
        PgKind::Deeppwell => "deeppwell",
    }
}

fn put_pg(out: &mut String, names: &Names, pg: &PgPin) -> Result<(), Fail> {
    write!(out, "{} {}", text_of(names, pg.name), word_of_kind(pg.kind))?;
    if let Some(switched) = &pg.switched {
        put_function(out, names, "off", &switched.off)?;
        write!(out, " passes {}", switched.passes)?;
    }
    write!(out, "\n")?;
    Ok(())
}

fn word_of_action(action: Option<Action>) -> &'static str {
    match action {
        None => "-",
        Some(Action::High) => "H",
        Some(Action::Low) => "L",
        Some(Action::Rise) => "R",
        Some(Action::Fall) => "F",
    }
}

/// Writes what a pin is for: with its class and its actions where it saves or restores.
fn put_use(out: &mut String, used: PinUse) -> Result<(), Fail> {
    match used {
        PinUse::Plain => write!(out, "plain")?,
        PinUse::IsoData => write!(out, "isolation_data")?,
        PinUse::IsoEnable => write!(out, "isolation_enable")?,
        PinUse::ShiftData => write!(out, "shifter_data")?,
        PinUse::ShiftEnable => write!(out, "shifter_enable")?,
        PinUse::Switch => write!(out, "switch")?,
        PinUse::Retain(class, save, restore) => {
            let word = match class {
                RetClass::Save => "save",
                RetClass::Restore => "restore",
                RetClass::Both => "save_restore",
            };
            write!(
                out,
                "{word} {} {}",
                word_of_action(save),
                word_of_action(restore)
            )?;
        }
    }
    Ok(())
}

/// Writes the name and the direction of a pin, the places of its related pins, and what it is for.
fn put_pin(out: &mut String, names: &Names, pin: &Pin) -> Result<(), Fail> {
    let direction = match pin.direction {
        Direction::Input => "input",
        Direction::Output => "output",
    };
    write!(
        out,
        "{} {direction} {} ",
        text_of(names, pin.name),
        pin.power
    )?;
    match pin.gnd {
        Some(gnd) => write!(out, "{gnd} ")?,
        None => write!(out, "- ")?,
    }
    put_use(out, pin.use_of)?;
    put_if_any(out, names, "function", &pin.function)?;
    put_if_any(out, names, "down", &pin.power_down)?;
    write!(out, "\n")?;
    Ok(())
}

fn put_state(out: &mut String, names: &Names, state: &StateGroup) -> Result<(), Fail> {
    let word = match state.kind {
        StateKind::Flop => "ff",
        StateKind::Latch => "latch",
    };
    let (var, inverse) = (text_of(names, state.var), text_of(names, state.inverse));
    write!(out, "{word} {var} {inverse}")?;
    for (word, e) in [
        ("next", &state.next),
        ("clock", &state.clock),
        ("clear", &state.clear),
        ("preset", &state.preset),
        ("down", &state.power_down),
    ] {
        put_function(out, names, word, e)?;
    }
    write!(out, "\n")?;
    Ok(())
}

/// Writes a range in microvolts.
fn put_range(out: &mut String, range: &Option<VoltageRange>) -> Result<(), Fail> {
    match range {
        None => write!(out, " all")?,
        Some(range) => write!(out, " {}-{}", range.low, range.high)?,
    }
    Ok(())
}

fn put_roles(out: &mut String, names: &Names, roles: &Roles) -> Result<(), Fail> {
    if roles.iso {
        write!(out, "isolation\n")?;
    }
    if roles.switch {
        write!(out, "switch\n")?;
    }
    if let Some(shifter) = &roles.shifter {
        let kind = match shifter.kind {
            ShifterKind::LowToHigh => "LH",
            ShifterKind::HighToLow => "HL",
            ShifterKind::Both => "HL_LH",
        };
        write!(out, "shifter {kind}")?;
        put_range(out, &shifter.input)?;
        put_range(out, &shifter.output)?;
        write!(out, "\n")?;
    }
    if let Some(copy) = &roles.retention {
        put_function(out, names, "retention", copy)?;
        write!(out, "\n")?;
    }
    Ok(())
}

/// The word of the reason why a cell cannot be used.
fn reason_word(cell: &Cell) -> &'static str {
    match cell.unusable {
        None => "usable",
        Some(reason) => reason.word(),
    }
}

/// Writes a cell: a line with its name, its area and whether it is usable, and a line for each part.
pub(crate) fn put_cell(out: &mut String, names: &Names, cell: &Cell) -> Result<(), Fail> {
    let name = text_of(names, cell.name);
    write!(out, "{name} {} {}\n", cell.area, reason_word(cell))?;
    for pg in cell.pgs.as_slice() {
        put_pg(out, names, pg)?;
    }
    for pin in cell.pins.as_slice() {
        put_pin(out, names, pin)?;
    }
    if let Some(state) = &cell.state {
        put_state(out, names, state)?;
    }
    put_roles(out, names, &cell.roles)
}
