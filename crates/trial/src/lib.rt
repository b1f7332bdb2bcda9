// What the tests share: table and list with what is asked of them; a call of the library beside the
// same call of the model, each on rooms of its own, compared in the answer and in every byte of the
// two rooms, lent or not; the count of these; and a table and a list to begin with, laid out by the
// model's code.
#![tactic(auto)]

use apart::{No, Wheel};
use model::{Asked, Call, Demand, Path, Reply, Rooms, Yes};
use std::fmt;
use through::Malformed;

// Table and list in their rooms, and what is asked of them.
#[derive(Clone, Copy)]
pub struct Scene {
    pub rooms: Rooms,
    pub asked: Asked,
}

// What the library answered to a call, whether the model answered the same and every byte is the
// model's, and whether every byte is as it was.
#[derive(Clone, Copy)]
struct Outcome {
    reply: Result<Reply, Malformed>,
    same: bool,
    stayed: bool,
}

// ---- what is asked

// The default wheel.
pub const WHEEL: Wheel = Wheel {
    n: 8,
    s: 3,
    h: 1,
    p: 3,
};

// What the report of the four flows below counts.
pub const COUNTED: Yes = Yes::Counted { free: 92, held: 36 };

// A path through all sixteen channels, each once.
const EVERY_CHANNEL: [u16; 16] = [0, 3, 9, 1, 2, 4, 5, 6, 7, 8, 10, 11, 12, 13, 14, 15];

// An opening of flow 1 over the first three channels of that path, on this wheel, with sixteen
// channels and eight flows.
pub fn asked(wheel: Wheel) -> Asked {
    let channels = EVERY_CHANNEL;
    Asked {
        wheel,
        table: 16 * model::ROW,
        list: 8 * model::ROW,
        flow: 1,
        path: Path { channels, len: 3 },
        demand: Demand {
            words: 2,
            deadline: 20,
        },
    }
}

impl Scene {
    // Rooms of zeros, and that opening.
    pub fn empty(wheel: Wheel) -> Scene {
        Scene {
            rooms: Rooms::empty(),
            asked: asked(wheel),
        }
    }

    // The same, for another flow.
    pub fn with_flow(&self, flow: u64) -> Scene {
        let mut scene = *self;
        scene.asked.flow = flow;
        scene
    }

    // The same, for another demand.
    pub fn with_demand(&self, words: u64, deadline: u64) -> Scene {
        let mut scene = *self;
        scene.asked.demand = Demand { words, deadline };
        scene
    }

    // Lays out an open flow.
    fn lay(&mut self, flow: u64, path: &[u16], words: u64, deadline: u64, slots: u64) {
        let mut laid = self.asked;
        laid.flow = flow;
        laid.path = Path::over(path);
        laid.demand = Demand { words, deadline };
        model::write(&mut self.rooms.table, &mut self.rooms.list, &laid, slots);
    }

    // Four flows: 1, 2, 5 and 7 of eight on sixteen channels, with the default wheel. Flow 1 has slots
    // 0 and 1, flow 2 slots 2, 4 and 7, flow 5 slots 0 and 1, and flow 7 slots 1 and 5; they hold 36
    // cells. On the path asked for, over channels 0, 3 and 9, slots 2, 3, 5 and 6 are free, which
    // deliver 10 words and leave a gap of 4. Flow 3 is asked for, which is closed.
    pub fn four_flows() -> Scene {
        let mut scene = Scene::empty(WHEEL).with_flow(3);
        scene.lay(1, &[0, 1], 5, 20, 0b11);
        scene.lay(2, &[2, 1], 6, 5, 0b10010100);
        scene.lay(5, &[3], 3, 9, 0b11);
        scene.lay(
            7,
            &[4, 5, 6, 7, 8, 9, 10, 11, 12, 13, 14, 15],
            4,
            16,
            0b100010,
        );
        scene
    }

    // ---- the calls

    // A call on copies of the rooms.
    fn tried(&self, call: Call) -> Outcome {
        let mut ours = self.rooms;
        let reply = through::answer(call, &mut ours.table, &mut ours.list, &self.asked);
        let mut theirs = self.rooms;
        let modelled = model::answer(call, &mut theirs.table, &mut theirs.list, &self.asked);
        Outcome {
            reply,
            same: reply == Ok(modelled) && ours == theirs,
            stayed: ours == self.rooms,
        }
    }

    // The library's call, which changes table and list.
    pub fn make(&mut self, call: Call) -> Result<Reply, Malformed> {
        through::answer(
            call,
            &mut self.rooms.table,
            &mut self.rooms.list,
            &self.asked,
        )
    }
}

// ---- what a call must do

// How many calls were made, how many of them were refused by 4, and how many did not do what they
// must.
#[derive(Clone, Copy, Default)]
pub struct Tally {
    pub calls: u64,
    pub fours: u64,
    pub differ: u64,
}

impl Tally {
    // One call more, which did what it must or not.
    pub fn count(&mut self, right: bool) {
        self.calls = self.calls.wrapping_add(1);
        self.differ = self.differ.wrapping_add(u64::from(!right));
    }

    // The same, with its answer.
    fn note(&mut self, reply: Result<Reply, Malformed>, right: bool) {
        self.count(right);
        let four = reply == Ok(Err(No::Disagree));
        self.fours = self.fours.wrapping_add(u64::from(four));
    }

    // A call that must do as the model does.
    pub fn compared(&mut self, call: Call, scene: &Scene) {
        let outcome = scene.tried(call);
        self.note(outcome.reply, outcome.same);
    }

    // All four calls, which must do as the model does. The flow to close is 1.
    pub fn all_compared(&mut self, scene: &Scene) {
        self.compared(Call::Open, scene);
        self.compared(Call::Report, scene);
        self.compared(Call::Agree, scene);
        self.compared(Call::Close, &scene.with_flow(1));
    }

    // A call that must answer this yes, and else do as the model does.
    pub fn answered(&mut self, call: Call, scene: &Scene, yes: Yes) {
        let outcome = scene.tried(call);
        self.note(outcome.reply, outcome.same && outcome.reply == Ok(Ok(yes)));
    }

    // A call that must be refused by this no, and change nothing.
    pub fn refused(&mut self, call: Call, scene: &Scene, no: No) {
        let outcome = scene.tried(call);
        self.note(
            outcome.reply,
            outcome.same && outcome.stayed && outcome.reply == Ok(Err(no)),
        );
    }

    // All four calls, which must be refused by this no and change nothing. The flow to close is 1.
    pub fn all_refused(&mut self, scene: &Scene, no: No) {
        self.refused(Call::Open, scene, no);
        self.refused(Call::Report, scene, no);
        self.refused(Call::Agree, scene, no);
        self.refused(Call::Close, &scene.with_flow(1), no);
    }
}

impl fmt::Display for Tally {
    fn fmt<W: fmt::Write>(&self, f: &mut fmt::Formatter<W>) -> fmt::Result {
        let calls = self.calls;
        let fours = self.fours;
        let differ = self.differ;
        write!(f, "calls {calls}, refused by 4 {fours}, differ {differ}")
    }
}
