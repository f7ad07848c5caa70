// The program: settles the day file on standard input and prints what its charges come from, or where it is refused, as docs/EXPLAIN.md says.
// All that is decided is decided by `settlement::settle`; amounts and charges are printed from the statement, and what they rest on is asked
// of the functions that settled them.
#![tactic(auto)]

ghost use Rattle.std.specs.Prelude.{◌≡◌, ◌+◌, ◌-◌, ◌*◌, ◌≤◌, ◌<◌, length, IfSome};
ghost use Rattle.std.specs.Iterator.{at_most};
ghost use Rattle.limits.specs.Ranges.{day_hours, most_coordinators, proved_points};
ghost use Rattle.hour.specs.Layout.{hour_words};
ghost use Rattle.body.specs.Layout.{points_of, coordinators_of, hour_at};
ghost use Rattle.body.specs.Kept.{Sound};
ghost use Rattle.contents.specs.File.{areas_of};
ghost use Rattle.surcharge.specs.Ranges.{TermsKept};
ghost use Rattle.settlement.specs.SoundFile.{SoundFile};

use amounts::DayHour;
use locating::{Field, Place};
use std::{fmt, io};
use surcharge::Terms;
use verdict::Refusal;

// ---- the parts of a settled day

// The numbers of an hour in the statement: its amounts as they are shown there, and the charges behind them.
#[derive(Clone, Copy)]
struct Hour<'a> {
    on: i64,
    off: i64,
    down: i64,
    surcharge: i64,
    credit: i64,
    charges: &'a [i64],
}

impl<'a> Hour<'a> {
    // The charge of coordinator i. A settled statement has it.
    fn charge(self, i: usize) -> i64 {
        self.charges.get(i).copied().unwrap_or(0)
    }

    fn totals(self) -> Totals {
        Totals {
            on: self.on,
            off: self.off,
            down: self.down,
            charges: self
                .charges
                .iter()
                .fold(0, |sum: i64, charge| sum.saturating_add(*charge)),
        }
    }
}

// An area: its number, what its day is settled under, its body, and its numbers in the statement.
#[derive(Clone, Copy)]
struct Area<'a> {
    number: u32,
    terms: Terms,
    body: &'a [u8],
    block: &'a [i64],
    ghost kept: { TermsKept terms },
    ghost sound: { Sound proved_points body.now },
}

impl<'a> Area<'a> {
    // L of the body.
    fn load_points(self) -> usize
        ensures { (result ≡ points_of self.entry.body.now) × (result ≤ proved_points) }
    {
        words::word(self.body, 5) as usize
    }

    // K of the body.
    fn coordinators(self) -> usize
        ensures { (result ≡ coordinators_of self.entry.body.now) × (result ≤ most_coordinators) }
    {
        words::word(self.body, 6) as usize
    }

    // The number of coordinator i.
    fn coordinator(self, i: usize) -> u32
        requires { i < coordinators_of self.body.now }
    {
        words::word(self.body, 7 + i)
    }

    // Which coordinator has the number.
    fn position(self, coordinator: u32) -> Option<usize>
        ensures { IfSome result (λ i. i < coordinators_of self.entry.body.now) }
    {
        for i in 0..self.coordinators() {
            if self.coordinator(i) == coordinator {
                return Some(i);
            }
        }
        None
    }

    // Where hour h of the body starts.
    #[tactic(auto, unfolding(body::specs::Layout::hour_start))]
    fn hour_start(self, h: usize) -> usize
        requires { h < day_hours }
        ensures value { result ≡ hour_at self.entry.body.now h }
        ensures body_in_bounds { 4 * (result + hour_words (points_of self.entry.body.now) (coordinators_of self.entry.body.now)) ≤ length self.entry.body.now }
    {
        let load = self.load_points();
        let count = self.coordinators();
        7 + count + h * (8 + 24 * load + count)
    }

    // The numbers of hour h in the statement. A settled statement has them.
    fn hour(self, h: usize) -> Hour<'a>
        requires { h < day_hours }
    {
        let each = statement::hour_numbers(self.coordinators());
        let numbers = self.block.get(h * each..(h + 1) * each).unwrap_or(&[]);
        let (amounts, charges) = numbers.split_first_chunk().unwrap_or((&[0; 5], &[]));
        let [on, off, down, surcharge, credit] = *amounts;
        Hour {
            on,
            off,
            down,
            surcharge,
            credit,
            charges,
        }
    }

    fn totals(self) -> Totals {
        let mut totals = Totals::default();
        for h in 0..limits::DAY_HOURS {
            totals = totals.and(self.hour(h).totals());
        }
        totals
    }

    // The charges of a coordinator in all hours; 0 where it is none of the area's.
    fn charges_of(self, coordinator: u32) -> i64 {
        let mut total: i64 = 0;
        if let Some(i) = self.position(coordinator) {
            for h in 0..limits::DAY_HOURS {
                total = total.saturating_add(self.hour(h).charge(i));
            }
        }
        total
    }
}

// The areas of a settled file from area `next` on, and their part of the statement, where each stands behind those before it.
#[derive(Clone, Copy)]
struct Areas<'a> {
    file: &'a [u8],
    next: usize,
    statement: &'a [i64],
    ghost sound: { SoundFile file.now },
}

impl<'a> Iterator for Areas<'a> {
    type Item = Area<'a>;

    ghost remaining = { λ areas. at_most (areas_of areas.file.now - areas.next) };

    fn next(&mut self) -> Option<Area<'a>> {
        let k = self.next;
        if words::word(self.file, 2) as usize <= k {
            return None;
        }
        let body = contents::body_at(self.file, k);
        let terms = Terms {
            peak: words::word(self.file, 3),
            days: words::word(body, 2),
        };
        let count = words::word(body, 6) as usize;
        let numbers = statement::area_numbers(count);
        let (block, others) = self
            .statement
            .split_at_checked(numbers)
            .unwrap_or((&[], &[]));
        self.next = k + 1;
        self.statement = others;
        Some(Area {
            number: words::word(self.file, 4 + 3 * k),
            terms,
            body,
            block,
        })
    }
}

// The areas of a settled file, each with its numbers in the file's statement.
fn all_areas<'a>(file: &'a [u8], statement: &'a [i64]) -> Areas<'a>
    requires { SoundFile file.now }
{
    Areas {
        file,
        next: 0,
        statement,
    }
}

// ---- totals

// An amount is within limits::MOST_AMOUNT, and a statement has at most settlement::MOST_NUMBERS: no sum of them comes near its bound.
#[derive(Clone, Copy, Default)]
struct Totals {
    on: i64,
    off: i64,
    down: i64,
    charges: i64,
}

impl Totals {
    fn and(self, others: Totals) -> Totals {
        Totals {
            on: self.on.saturating_add(others.on),
            off: self.off.saturating_add(others.off),
            down: self.down.saturating_add(others.down),
            charges: self.charges.saturating_add(others.charges),
        }
    }
}

impl fmt::Display for Totals {
    fn fmt<W: fmt::Write>(&self, f: &mut fmt::Formatter<W>) -> fmt::Result {
        write!(
            f,
            "{}\t{}\t{}\t{}",
            self.on, self.off, self.down, self.charges
        )
    }
}

// ---- the day and its areas

fn show_day(rt: &impl Print, file: &[u8]) -> io::Result<()>
    requires { 16 ≤ length file.now }
{
    println!(rt; "header\tday\ttrading day\tareas\tpeak word")?;
    println!(rt;
        "day\t{}\t{}\t{}",
        words::word(file, 1),
        words::word(file, 2),
        words::word(file, 3)
    )
}

// The words of the body's head as the file has them, with the greater hub price behind the two; then L, K, the day tier, M and m.
fn show_area(rt: &impl Print, area: Area<'_>) -> io::Result<()> {
    let body = area.body;
    let number = area.number;
    let kind = words::word(body, 0);
    let flag = words::word(body, 1);
    let days = words::word(body, 2);
    let hub_a = words::signed(words::word(body, 3));
    let hub_b = words::signed(words::word(body, 4));
    let hub = amounts::hub_price(body).0;
    let load = area.load_points();
    let count = area.coordinators();
    let day = amounts::day_facts(area.terms, body);
    let tier = day.tier;
    let most = day.most.0;
    let quarters = explaining::multiplier(tier);
    print!(rt; "area\t{number}\t{kind}\t{flag}\t{days}\t{hub_a}\t{hub_b}\t{hub}")?;
    println!(rt; "\t{load}\t{count}\t{tier}\t{most}\t{quarters}")
}

fn show_areas(rt: &impl Print, areas: Areas<'_>) -> io::Result<()> {
    print!(rt;
        "header\tarea\tarea\tkind\tflag\td\thub price A (cents)\thub price B (cents)\tgreater hub price (cents)"
    )?;
    println!(rt; "\tload points\tcoordinators\tday tier\tM (0.001 MW)\tm (quarters)")?;
    for area in areas {
        show_area(rt, area)?;
    }
    Ok(())
}

// ---- the hours

// Of each hour U, Q, the tier, whether it is a peak hour, and whether the price is needed; the price and its count; m; S, the credit, the
// on-peak and the off-peak amount, as the statement shows them; W, MEC, the downward amount, A and T.
fn show_area_hours(rt: &impl Print, area: Area<'_>) -> io::Result<()> {
    let number = area.number;
    let terms = area.terms;
    let body = area.body;
    let day = amounts::day_facts(terms, body);
    for h in 0..limits::DAY_HOURS {
        let day_hour = DayHour {
            terms,
            day,
            body,
            h,
            at: area.hour_start(h),
        };
        let hour = area.hour(h);
        let shortage = explaining::hour_shortage(day_hour);
        let upward = shortage.upward.0;
        let requirement = shortage.requirement.0;
        let tier = shortage.tier;
        let peak = u8::from(shortage.peak);
        let needed = u8::from(shortage.needed);
        print!(rt;
            "hour\t{number}\t{}\t{upward}\t{requirement}\t{tier}\t{peak}\t{needed}",
            h + 1
        )?;
        let priced = explaining::hour_price(day_hour);
        match priced.price {
            Some(price) => print!(rt; "\t{}", price.0)?,
            None => print!(rt; "\tnone")?,
        }
        print!(rt; "\t{}\t{}", priced.count, shortage.quarters)?;
        print!(rt;
            "\t{}\t{}\t{}\t{}",
            hour.surcharge, hour.credit, hour.on, hour.off
        )?;
        let downward = explaining::hour_downward(day_hour).0;
        let mec = explaining::hour_mec(day_hour);
        let amount = explaining::hour_amount(day_hour).0;
        let demand = explaining::hour_demand(day_hour);
        println!(rt; "\t{downward}\t{mec}\t{}\t{amount}\t{demand}", hour.down)?;
    }
    Ok(())
}

fn show_hours(rt: &impl Print, areas: Areas<'_>) -> io::Result<()> {
    print!(rt;
        "header\thour\tarea\thour ending\tU (0.001 MW)\tQ (0.001 MW)\ttier\tpeak\tprice needed\tprice ($0.0001)"
    )?;
    print!(rt;
        "\tintervals with a price\tm (quarters)\tS (cents)\tcredit (cents)\ton-peak (cents)\toff-peak (cents)"
    )?;
    println!(rt; "\tW (0.001 MW)\tMEC ($0.0001)\tdownward (cents)\tA (cents)\tT (0.001 MWh)")?;
    for area in areas {
        show_area_hours(rt, area)?;
    }
    Ok(())
}

// ---- the intervals

fn show_hour_intervals(rt: &impl Print, area: Area<'_>, h: usize) -> io::Result<()>
    requires { h < day_hours }
{
    let number = area.number;
    let from = area.hour_start(h) + 8;
    for i in 0..12 * area.load_points() {
        let quantity = words::word(area.body, from + 2 * i);
        let price = words::word(area.body, from + 2 * i + 1);
        print!(rt; "interval\t{number}\t{}\t{}\t{quantity}", h + 1, i + 1)?;
        if price == limits::MISSING_PRICE {
            println!(rt; "\tmissing")?;
        } else {
            println!(rt; "\t{}", words::signed(price))?;
        }
    }
    Ok(())
}

fn show_intervals(rt: &impl Print, areas: Areas<'_>) -> io::Result<()> {
    println!(rt;
        "header\tinterval\tarea\thour ending\tinterval\tquantity (0.001 MWh)\tprice ($0.0001)"
    )?;
    for area in areas {
        for h in 0..limits::DAY_HOURS {
            show_hour_intervals(rt, area, h)?;
        }
    }
    Ok(())
}

// ---- the charges

fn show_hour_charges(rt: &impl Print, area: Area<'_>, h: usize) -> io::Result<()>
    requires { h < day_hours }
{
    let number = area.number;
    let hour = area.hour(h);
    let from = area.hour_start(h) + 8 + 24 * area.load_points();
    for i in 0..area.coordinators() {
        let coordinator = area.coordinator(i);
        let demand = words::word(area.body, from + i);
        let charge = hour.charge(i);
        println!(rt;
            "charge\t{number}\t{coordinator}\t{}\t{demand}\t{charge}",
            h + 1
        )?;
    }
    Ok(())
}

fn show_charges(rt: &impl Print, areas: Areas<'_>) -> io::Result<()> {
    println!(rt;
        "header\tcharge\tarea\tcoordinator\thour ending\tdemand (0.001 MWh)\tcharge (cents)"
    )?;
    for area in areas {
        for h in 0..limits::DAY_HOURS {
            show_hour_charges(rt, area, h)?;
        }
    }
    Ok(())
}

// ---- totals by area, by coordinator and of the day

fn show_area_totals(rt: &impl Print, areas: Areas<'_>) -> io::Result<()> {
    println!(rt;
        "header\tarea-total\tarea\ton-peak (cents)\toff-peak (cents)\tdownward (cents)\tcharges (cents)"
    )?;
    for area in areas {
        println!(rt; "area-total\t{}\t{}", area.number, area.totals())?;
    }
    Ok(())
}

fn show_day_totals(rt: &impl Print, areas: Areas<'_>) -> io::Result<()> {
    println!(rt;
        "header\tday-total\ton-peak (cents)\toff-peak (cents)\tdownward (cents)\tcharges (cents)"
    )?;
    let mut totals = Totals::default();
    for area in areas {
        totals = totals.and(area.totals());
    }
    println!(rt; "day-total\t{totals}")
}

fn coordinator_total(areas: Areas<'_>, coordinator: u32) -> i64 {
    let mut total: i64 = 0;
    for area in areas {
        total = total.saturating_add(area.charges_of(coordinator));
    }
    total
}

// The totals of an area's coordinators that none of the `before` areas names.
fn show_area_coordinators(
    rt: &impl Print,
    areas: Areas<'_>,
    area: Area<'_>,
    before: usize,
) -> io::Result<()> {
    for i in 0..area.coordinators() {
        let coordinator = area.coordinator(i);
        if areas
            .take(before)
            .all(|other| other.position(coordinator).is_none())
        {
            println!(rt;
                "coordinator-total\t{coordinator}\t{}",
                coordinator_total(areas, coordinator)
            )?;
        }
    }
    Ok(())
}

fn show_coordinators(rt: &impl Print, areas: Areas<'_>) -> io::Result<()> {
    println!(rt; "header\tcoordinator-total\tcoordinator\tcharges (cents)")?;
    for (k, area) in areas.enumerate() {
        show_area_coordinators(rt, areas, area, k)?;
    }
    Ok(())
}

// ---- a day that is settled

fn show_settled(rt: &impl Print, file: &[u8], statement: &[i64]) -> io::Result<()>
    requires { SoundFile file.now }
{
    let areas = all_areas(file, statement);
    show_day(rt, file)?;
    show_areas(rt, areas)?;
    show_hours(rt, areas)?;
    show_intervals(rt, areas)?;
    show_charges(rt, areas)?;
    show_area_totals(rt, areas)?;
    show_coordinators(rt, areas)?;
    show_day_totals(rt, areas)
}

// ---- a day that is refused

fn name_of(field: Field) -> &'static str {
    match field {
        Field::Edition => "edition",
        Field::TradingDay => "trading day",
        Field::Areas => "areas",
        Field::PeakWord => "peak word",
        Field::AreaNumber => "area number",
        Field::FirstWord => "first word",
        Field::Words => "words",
        Field::Kind => "kind",
        Field::Flag => "flag",
        Field::PersistentDays => "persistent days",
        Field::HubPriceA => "hub price A",
        Field::HubPriceB => "hub price B",
        Field::LoadPoints => "load points",
        Field::Coordinators => "coordinators",
        Field::Coordinator { .. } => "coordinator",
        Field::UpwardEnergy => "upward energy",
        Field::RegulationUp => "regulation up",
        Field::Spin => "spin",
        Field::NonSpin => "non-spin",
        Field::DownwardEnergy => "downward energy",
        Field::RegulationDown => "regulation down",
        Field::Requirement => "requirement",
        Field::Mec => "MEC",
        Field::IntervalQuantity { .. } => "interval quantity",
        Field::IntervalPrice { .. } => "interval price",
        Field::Demand { .. } => "demand",
        Field::Nowhere => "nowhere",
    }
}

// Which coordinator, interval or demand, from 1; 0 for any other field.
fn which(field: Field) -> usize {
    match field {
        Field::Coordinator { which }
        | Field::IntervalQuantity { which }
        | Field::IntervalPrice { which }
        | Field::Demand { which } => which,
        _ => 0,
    }
}

fn part_of(file: &[u8], at: usize, hour: usize) -> &'static str {
    if at < 4 {
        "head"
    } else if at < 4 + 3 * (locating::word(file, 2) as usize) {
        "contents"
    } else if hour == 0 {
        "body"
    } else {
        "hour"
    }
}

// The number of the area of an entry, from 1; 0 where it is none.
fn entry_number(file: &[u8], entry: usize) -> u32 {
    if entry == 0 || limits::MOST_AREAS < entry {
        return 0;
    }
    locating::word(file, 1 + 3 * entry)
}

// L of the area of an entry, from 1.
fn entry_points(file: &[u8], entry: usize) -> usize
    ensures { result < 4294967296 }
{
    if limits::MOST_AREAS < entry {
        return 0;
    }
    let start = locating::word(file, 2 + 3 * entry) as usize;
    locating::word(file, start + 5) as usize
}

// How many intervals have a price among those of L load points from a word on.
fn count_present(file: &[u8], at: usize, load: usize) -> u32
    requires { (at < 4294967296) × (load < 4294967296) }
{
    let from = 4 * at;
    let pairs = file.get(from..from + 96 * load).unwrap_or(&[]);
    price::count_of(price::load_weighted(pairs))
}

// How many intervals of the hour have a price and how many there are, where that is what is refused; else 0 of 0.
fn intervals_seen(file: &[u8], refusal: Refusal, entry: usize) -> (u32, usize) {
    match refusal {
        Refusal::PriceWithoutQuantity { place } | Refusal::TooFewIntervals { place }
            if place <= limits::MOST_BYTES => {
            let load = entry_points(file, entry);
            (count_present(file, place, load), 12 * load)
        }
        _ => (0, 0),
    }
}

// A refusal at a word of the file.
fn show_placed(
    rt: &impl Print,
    file: &[u8],
    refusal: Refusal,
    at: usize,
    place: Place,
) -> io::Result<()> {
    let part = part_of(file, at, place.hour);
    let area = words::signed(entry_number(file, place.entry));
    let name = name_of(place.field);
    let which = which(place.field);
    let value = words::signed(locating::word(file, at));
    let (present, intervals) = intervals_seen(file, refusal, place.entry);
    print!(rt;
        "\t{part}\t{}\t{area}\t{}\t{name}\t{which}\t{value}",
        place.entry, place.hour
    )?;
    println!(rt; "\t{present}\t{intervals}")
}

// Two refusals name no word of the file: what of it is meant, and its value.
fn show_refused(rt: &impl Print, file: &[u8], refusal: Refusal) -> io::Result<()> {
    let number = refusal.number();
    let place = refusal.place();
    print!(rt;
        "header\trefused\tnumber\tplace\tpart\tentry\tarea\thour ending\tfield\twhich\tvalue"
    )?;
    println!(rt; "\tintervals with a price\tintervals")?;
    print!(rt; "refused\t{number}\t{place}")?;
    match refusal {
        Refusal::BadLength => println!(rt; "\tfile\t0\t0\t0\tbytes\t0\t{}\t0\t0", file.len()),
        Refusal::RoomTooShort { needed } => println!(rt;
            "\tstatement\t0\t0\t0\tnumbers needed\t0\t{needed}\t0\t0"
        ),
        _ => show_placed(rt, file, refusal, place, locating::find(file, place)),
    }
}

// Prints what the charges of a day that is settled come from, or where it is refused.
fn explain(rt: &impl Print, file: &[u8]) -> io::Result<()> {
    let mut statement = reading::statement_room();
    match settlement::settle(file, &mut statement) {
        Ok(()) => show_settled(rt, file, &statement),
        Err(refusal) => show_refused(rt, file, refusal),
    }
}

// Reads the file, and prints what is said of it.
fn run(rt: &(impl Input + Print)) -> io::Result<()> {
    let mut room = reading::file_room();
    let got = reading::read_full(rt, &mut room)?;
    explain(rt, &room[..got])
}

// What could not be read or written is said on standard error, and makes the exit status 1.
fn main(rt: HostRuntime) -> io::Result<()> {
    run(&rt)
}
