// Plans that are run in every way.

/// A plan as a table of tasks, of which the first is the root.
#[derive(Clone, Copy)]
pub struct Tasks<'a> {
    /// What it is about.
    pub name: &'a str,
    /// The asks of each task.
    pub tasks: &'a [&'a str],
    /// The root's fuel.
    pub fuel: u64,
}

/// In the last plan each task spawns two of the next level, so there are 31 tasks, of which the last 16 push.
pub const PLANS: [Tasks<'static>; 5] = [
    Tasks {
        name: "pushers beside each other",
        tasks: &[
            "spawn:1:40:1.push spawn:1:40:1.push work push:1:1 sync push:1:2 spawn:2:20:1.push",
            "spawn:2:9:0.push push:0:3 spawn:2:9:0.push work work push:0:4",
            "work work push:0:5",
        ],
        fuel: 200,
    },
    Tasks {
        name: "a pipeline",
        tasks: &[
            "queue queue spawn:1:30:4.push spawn:2:60:4.pop,5.push spawn:3:40:5.pop,1.push work pop:5",
            "push:0:1 push:0:2 work push:0:3 work work push:0:4",
            "pop:0 push:1:0 pop:0 push:1:0 spawn:4:20:0.pop,1.push empty:0 push:1:9",
            "empty:0 push:1:0 pop:0 push:1:0 pop:0 push:1:0 pop:0 push:1:0",
            "work pop:0 push:1:0 pop:0 push:1:0 pop:0",
        ],
        fuel: 300,
    },
    Tasks {
        name: "readers and writers",
        tasks: &[
            "spawn:1:9:2.inout,1.push spawn:2:9:2.in,1.push spawn:2:9:2.in,1.push spawn:3:30:2.out,1.push read:2 push:1:0 spawn:2:9:2.in,1.push write:2:50 read:2 push:1:0",
            "read:0 push:1:0 write:0:8 work",
            "read:0 push:1:0",
            "read:0 push:1:0 spawn:4:9:0.out write:0:30 spawn:2:9:0.in,1.push",
            "work work write:0:40",
        ],
        fuel: 200,
    },
    Tasks {
        name: "faults",
        tasks: &[
            "spawn:1:40:0.pop spawn:2:9:1.push spawn:1:40:0.pop spawn:3:3: pop:0 pop:0",
            "spawn:4:9:0.pop pop:0 fail:4",
            "push:0:7 read:0",
            "work work work work",
            "pop:0 spawn:4:3:0.pop overflow",
        ],
        fuel: 200,
    },
    Tasks {
        name: "a tree of tasks",
        tasks: &[
            "spawn:1:70:1.push,2.inout spawn:1:70:1.push,2.inout",
            "spawn:2:30:0.push,1.inout spawn:2:30:0.push,1.inout",
            "spawn:3:12:0.push,1.inout sync spawn:3:12:0.push,1.inout",
            "spawn:4:4:0.push,1.inout spawn:4:4:0.push,1.inout",
            "read:1 push:0:0 write:1:6",
        ],
        fuel: 200,
    },
];
