//! The requests of the demonstration.

/// The founder's token: party 1, an official.
pub const OFFICIAL: &str = "abcdefghijklmnopqrstuvwxyz";

/// A request of the demonstration: the day, whose token, and the request.
pub struct Turn {
    pub day: u32,
    pub token: &'static str,
    pub method: &'static str,
    pub path: &'static str,
    pub body: &'static str,
}

const CLERK: &str = "clerk2clerk2clerk2";

const REVIEWER: &str = "reviewer3reviewer3";

const INSPECTOR: &str = "inspector4inspector4";

const PUBLIC: &str = "public5public5public5";

/// One file from its filing to its certificate.
pub const TURNS: [Turn; 27] = [
    Turn {
        day: 19700,
        token: OFFICIAL,
        method: "POST",
        path: "/parties",
        body: "{\"name\":\"Cal\",\"role\":\"clerk\",\"token\":\"clerk2clerk2clerk2\"}",
    },
    Turn {
        day: 19700,
        token: OFFICIAL,
        method: "POST",
        path: "/parties",
        body: "{\"name\":\"Rae\",\"role\":\"reviewer\",\"token\":\"reviewer3reviewer3\"}",
    },
    Turn {
        day: 19700,
        token: OFFICIAL,
        method: "POST",
        path: "/parties",
        body: "{\"name\":\"Ian\",\"role\":\"inspector\",\"token\":\"inspector4inspector4\"}",
    },
    Turn {
        day: 19700,
        token: OFFICIAL,
        method: "POST",
        path: "/parties",
        body: "{\"name\":\"Sam\",\"role\":\"public\",\"token\":\"public5public5public5\"}",
    },
    Turn {
        day: 19700,
        token: OFFICIAL,
        method: "POST",
        path: "/parcels",
        body: "{\"lot\":\"A-1\",\"address\":\"1 Main St\",\"owner\":5}",
    },
    Turn {
        day: 19723,
        token: PUBLIC,
        method: "POST",
        path: "/files",
        body: "{\"parcel\":1,\"kind\":\"construct\",\"valuation\":25000000,\"description\":\"House\"}",
    },
    Turn {
        day: 19903,
        token: OFFICIAL,
        method: "GET",
        path: "/files/1",
        body: "",
    },
    Turn {
        day: 19903,
        token: CLERK,
        method: "POST",
        path: "/files/1/assign-reviewer",
        body: "{\"party\":3}",
    },
    Turn {
        day: 19903,
        token: REVIEWER,
        method: "POST",
        path: "/files/1/start-review",
        body: "",
    },
    Turn {
        day: 19903,
        token: REVIEWER,
        method: "POST",
        path: "/files/1/approve-plans",
        body: "",
    },
    Turn {
        day: 19903,
        token: CLERK,
        method: "POST",
        path: "/files/1/assign-inspector",
        body: "{\"party\":4}",
    },
    Turn {
        day: 19903,
        token: OFFICIAL,
        method: "POST",
        path: "/files/1/issue",
        body: "",
    },
    Turn {
        day: 19910,
        token: PUBLIC,
        method: "POST",
        path: "/files/1/begin-work",
        body: "",
    },
    Turn {
        day: 19920,
        token: PUBLIC,
        method: "POST",
        path: "/files/1/request-inspection",
        body: "{\"step\":\"footing\"}",
    },
    Turn {
        day: 19921,
        token: INSPECTOR,
        method: "POST",
        path: "/files/1/approve-step",
        body: "{\"step\":\"footing\"}",
    },
    Turn {
        day: 19925,
        token: PUBLIC,
        method: "POST",
        path: "/files/1/request-inspection",
        body: "{\"step\":\"slab\"}",
    },
    Turn {
        day: 19926,
        token: INSPECTOR,
        method: "POST",
        path: "/files/1/approve-step",
        body: "{\"step\":\"slab\"}",
    },
    Turn {
        day: 19930,
        token: PUBLIC,
        method: "POST",
        path: "/files/1/request-inspection",
        body: "{\"step\":\"frame\"}",
    },
    Turn {
        day: 19931,
        token: INSPECTOR,
        method: "POST",
        path: "/files/1/approve-step",
        body: "{\"step\":\"frame\"}",
    },
    Turn {
        day: 19933,
        token: PUBLIC,
        method: "POST",
        path: "/files/1/request-inspection",
        body: "{\"step\":\"energy\"}",
    },
    Turn {
        day: 19934,
        token: INSPECTOR,
        method: "POST",
        path: "/files/1/approve-step",
        body: "{\"step\":\"energy\"}",
    },
    Turn {
        day: 19935,
        token: PUBLIC,
        method: "POST",
        path: "/files/1/request-inspection",
        body: "{\"step\":\"lath\"}",
    },
    Turn {
        day: 19936,
        token: INSPECTOR,
        method: "POST",
        path: "/files/1/approve-step",
        body: "{\"step\":\"lath\"}",
    },
    Turn {
        day: 19940,
        token: PUBLIC,
        method: "POST",
        path: "/files/1/request-inspection",
        body: "{\"step\":\"final\"}",
    },
    Turn {
        day: 19941,
        token: INSPECTOR,
        method: "POST",
        path: "/files/1/approve-step",
        body: "{\"step\":\"final\"}",
    },
    Turn {
        day: 19950,
        token: OFFICIAL,
        method: "POST",
        path: "/files/1/certify",
        body: "",
    },
    Turn {
        day: 19950,
        token: PUBLIC,
        method: "GET",
        path: "/files/1",
        body: "",
    },
];
