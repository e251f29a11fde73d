// Runs of calls.
ghost use Rattle.std.specs.Prelude.{◌≡◌, map};
ghost use Rattle.drawers.specs.Shown.{shows};
ghost use Rattle.banks.specs.Meaning.{Meaning};
ghost use Rattle.meaning.specs.Calls.{perform, run as run_of};
ghost use Rattle.meaning.specs.Order.{OrderFree};
ghost use Rattle.renderer.specs.Calls.{sheet_of};
ghost use Rattle.renderer.specs.Call.{putting_call, putting_result, page_call, page_answer, call_of, result_of, LeavesPage, Leaves, EachLeaves};

use crate::calls::{Datum, Faulted, Refused, put, render};
use banks::bank::Bank;
use drawers::things::Drawers;
use frames::frame::TrailRecord;
use sheet::sheet::Sheet;
use tray::trays::Tray;

/// A call of `put`, with its answer once it is made.
#[derive(Drop)]
pub struct Putting<'a> {
    pub name: &'a [u8],
    pub datum: Datum<'a>,
    pub answer: Result<(), Refused>,
}

/// A call of `render`, with the memory that its result is left in, and its answer once it is made.
#[derive(Drop)]
pub struct Page<'a> {
    pub number: usize,
    pub tray: &'a Tray<'a>,
    pub buffer: Vec<u8>,
    pub trail: Vec<TrailRecord>,
    pub answer: Result<Option<Faulted>, Refused>,
}

/// A call.
#[derive(Drop)]
pub enum Call<'a> {
    Put(Putting<'a>),
    Render(Page<'a>),
}

impl<'a> Putting<'a> {
    fn make(&mut self, sheet: &Sheet, drawers: &mut Drawers)
        ensures done { (m : Meaning) → perform (sheet_of sheet.now) m (putting_call self.old) (shows drawers.old) ≡ (putting_result self.new, shows drawers.new) }
        ensures call { putting_call self.new ≡ putting_call self.old }
    {
        self.answer = put(sheet, drawers, self.name, self.datum);
    }
}

impl<'a> Page<'a> {
    fn make<B: Bank>(&mut self, sheet: &Sheet, drawers: &mut Drawers, bank: &mut B)
        ensures done { perform (sheet_of sheet.now) (B.Bank.meaning bank.old) (page_call self.old) (shows drawers.old) ≡ (page_answer self.new, shows drawers.new) }
        ensures call { page_call self.new ≡ page_call self.old }
        ensures left { LeavesPage self.old self.new }
        ensures same { B.Bank.meaning bank.new ≡ B.Bank.meaning bank.old }
    {
        self.answer = render(
            sheet,
            self.number,
            self.tray,
            drawers,
            bank,
            self.buffer.as_mut_slice(),
            self.trail.as_mut_slice(),
        );
    }
}

impl<'a> Call<'a> {
    // Makes the call.
    fn make<B: Bank>(&mut self, sheet: &Sheet, drawers: &mut Drawers, bank: &mut B)
        ensures done { perform (sheet_of sheet.now) (B.Bank.meaning bank.old) (call_of self.old) (shows drawers.old) ≡ (result_of self.new, shows drawers.new) }
        ensures call { call_of self.new ≡ call_of self.old }
        ensures left { Leaves self.old self.new }
        ensures same { B.Bank.meaning bank.new ≡ B.Bank.meaning bank.old }
    {
        match self {
            Call::Put(putting) => putting.make(sheet, drawers),
            Call::Render(page) => page.make(sheet, drawers, bank),
        }
    }
}

/// Makes the calls one after the other, each from the drawers that the one before left.
pub fn run<B: Bank>(sheet: &Sheet, drawers: &mut Drawers, bank: &mut B, calls: &mut [Call<'_>])
    ensures done { run_of (sheet_of sheet.now) (B.Bank.meaning bank.old) (map call_of calls.old) (shows drawers.old) ≡ (map result_of calls.new, shows drawers.new) }
    ensures calls { map call_of calls.new ≡ map call_of calls.old }
    ensures left { EachLeaves calls.old calls.new }
    ensures same { B.Bank.meaning bank.new ≡ B.Bank.meaning bank.old }
    ensures order { OrderFree }
{
    for i in 0..calls.len() {
        calls[i].make(sheet, drawers, bank);
    }
}
