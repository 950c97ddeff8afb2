//! The painters' mail to the foreman.
ghost use Rattle.std.specs.Prelude.{◌≡◌, ◌<◌, ◌≤◌, IfOk, length};
ghost use Rattle.crossbeam_channel.specs.Claims.{IsSeatAt};
ghost use Rattle.crossbeam_channel.specs.Ends.{receives_on, sends_on};
ghost use Rattle.session_file.specs.Plans.{Fits};
ghost use Rattle.shift_model.specs.Plans.{plan_of as the_plan_of};

use crate::plans::{act_at, acts_of, plan_of, prepare};
use crossbeam_channel::protocol::{Free, Split};
use crossbeam_channel::{Pass, RuledReceiver, RuledSender, bounded_with};
use mill_base::memory::OutOfMemory;
use mill_io::gate::{Gate, Point};
use session_file::session::Session;
use std::alloc::Global;
use std::sync::Wait;
use strokes::prepared::Prepared;

// How many acts wait in the mail at the most. The number is this project's own.
const WAITING: usize = 16;

/// A prepared act that a painter offers. `number` counts the painter's acts of the shift from 1.
#[derive(Drop)]
pub struct Mail {
    pub painter: u32,
    pub number: u32,
    pub prepared: Prepared,
}

/// An end that sends. Any mail may be sent.
pub type MailTo = RuledSender<Mail, (), Free>;

/// The end that receives.
pub type MailFrom = RuledReceiver<Mail, (), Free>;

/// What a thread needs to use its end.
pub type MailPass = Pass<Mail, ()>;

/// A painter's end of the mail, with its pass of this mail.
#[derive(Drop)]
pub struct Painter {
    pub painter: u32,
    pub to: MailTo,
    pub pass: MailPass,
    pub ghost seated: { IsSeatAt (sends_on to) pass },
}

// How a painter's pass is cut from the first.
struct Halves;

impl Split<()> for Halves {
    ghost left = { λ v. v };

    ghost right = { λ v. v };
}

/// A mail with an end for each painter of a shift that has acts, and the foreman's end.
pub fn open_mail(
    alloc: Global,
    session: &Session,
    shift: u32,
) -> Result<(Vec<Option<Painter>>, MailFrom, MailPass), OutOfMemory>
    requires fits { Fits session.now }
    requires shift { shift < length session.now.shifts }
    ensures seat { IfOk result (λ mail. IsSeatAt (receives_on mail.1) mail.2) }
    ensures ends { IfOk result (λ mail. length mail.0.items ≤ length (the_plan_of session.now shift).painters) }
{
    let (to, from, mut pass) = bounded_with::<Mail, (), Free, Global>(alloc, WAITING)?;
    let mut ends = Vec::new(alloc);
    let plan = plan_of(session, shift);
    'painters: for painter in 0..plan.painters.len() as u32 {
        if acts_of(plan, painter).is_empty() {
            continue 'painters;
        }
        let end = to.try_clone()?;
        let theirs = to.another::<Halves>(&mut pass);
        ends.push(Some(Painter {
            painter,
            to: end,
            pass: theirs,
        }))?;
    }
    Ok((ends, from, pass))
}

/// A painter's part of a shift: it prepares its acts in their order and offers each. What finds no room in the mail is left, and so is what
/// memory was refused for.
pub fn paint<R: Wait, G: Gate>(
    rt: &R,
    alloc: Global,
    session: &Session,
    shift: u32,
    painter: u32,
    end: Painter,
    gate: &G,
)
    requires fits { Fits session.now }
    requires shift { shift < length session.now.shifts }
    requires painter { painter < length (the_plan_of session.now shift).painters }
{
    let Painter { to, mut pass, .. } = end;
    let count = acts_of(plan_of(session, shift), painter).len() as u32;
    'acts: for place in 0..count {
        let act = act_at(session, shift, painter, place);
        let Ok(prepared) = prepare(alloc, session, act) else {
            continue 'acts;
        };
        let number = place + 1;
        gate.at(Point::BeforeMail {
            shift,
            painter,
            number,
        });
        let mail = Mail {
            painter,
            number,
            prepared,
        };
        let _ = to.try_send_as::<Free, R>(rt, &mut pass, mail);
    }
}
