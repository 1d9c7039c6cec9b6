ghost use Rattle.std.specs.Prelude.{◌≡◌, IfOk, MatchOption, Ok, codes};
ghost use Rattle.fd_http.specs.declared.request.Request.{Request};
ghost use Rattle.std.specs.Option.{option_copied};
ghost use Rattle.fd_json.specs.Body.{body_of};
ghost use Rattle.fd_api.specs.Demands.{Asks, AsksRoute, AsksOf, AsksWrite, Knows, AsksBody, AsksWithin, AsksList, AsksListed, AsksSum, AsksSummed, IsSelectFault, AsksTime, after_of, query_asked, ReadsSelector};
ghost use Rattle.fd_api.specs.Faults.{body_fault, label_fault, profile_fault, batch_fault};
ghost use Rattle.fd_api.specs.Targets.{query_of, last_value};

use crate::SmallBatch;
use crate::demand::Demand;
use crate::question::{Question, query_of};
use crate::route::{Listing, Route, Summing, method_name, method_of, route_of};
use crate::target::{last_value, parameters, split_target};
use fd_http::Request;
use fd_json::{BodyFault, Fault, Parameter, read_body};
use fd_kinds::{Bytes, NoMemory, Pair, RawBody, Selector, Text, Window, read_size};
use fd_pprof::ProfileFault;
use fd_rows::{BatchFault, LabelFault, batch};
use fd_select::{MomentFault, SelectFault, moment, selector};
use std::alloc::Global;

fn body_fault(fault: BodyFault) -> Result<Fault, NoMemory>
    ensures { IfOk result (λ f. body_fault fault ≡ Some f) }
{
    match fault {
        BodyFault::NotJson => Ok(Fault::NotJson),
        BodyFault::BadShape => Ok(Fault::BadShape),
        BodyFault::BadBase64 { series, sample } => Ok(Fault::BadBase64 { series, sample }),
        BodyFault::NoMemory => Err(NoMemory),
    }
}

fn label_fault(series: u64, label: u64, fault: LabelFault) -> Fault
    ensures { result ≡ label_fault series label fault }
{
    match fault {
        LabelFault::BadLabelName => Fault::BadLabelName { series, label },
        LabelFault::LongValue => Fault::LongValue { series, label },
        LabelFault::RepeatedLabel => Fault::RepeatedLabel { series, label },
    }
}

fn profile_fault(series: u64, sample: u64, fault: ProfileFault) -> Result<Fault, NoMemory>
    ensures { IfOk result (λ f. profile_fault series sample fault ≡ Some f) }
{
    match fault {
        ProfileFault::Compressed => Ok(Fault::Compressed { series, sample }),
        ProfileFault::Wire { at } => Ok(Fault::Wire {
            series,
            sample,
            at: at as u64,
        }),
        ProfileFault::StringZero => Ok(Fault::StringZero { series, sample }),
        ProfileFault::StringIndex => Ok(Fault::StringIndex { series, sample }),
        ProfileFault::ValueCount => Ok(Fault::ValueCount { series, sample }),
        ProfileFault::UnknownLocation => Ok(Fault::UnknownLocation { series, sample }),
        ProfileFault::UnknownMapping => Ok(Fault::UnknownMapping { series, sample }),
        ProfileFault::UnknownFunction => Ok(Fault::UnknownFunction { series, sample }),
        ProfileFault::RepeatedId => Ok(Fault::RepeatedId { series, sample }),
        ProfileFault::NotUtf8 => Ok(Fault::NotUtf8 { series, sample }),
        ProfileFault::TooDeep => Ok(Fault::TooDeep { series, sample }),
        ProfileFault::LongText => Ok(Fault::LongText { series, sample }),
        ProfileFault::NoMemory => Err(NoMemory),
    }
}

fn batch_fault(fault: BatchFault) -> Result<Fault, NoMemory>
    ensures { IfOk result (λ f. batch_fault fault ≡ Some f) }
{
    match fault {
        BatchFault::Label {
            series,
            label,
            fault,
        } => Ok(label_fault(series, label, fault)),
        BatchFault::NoName { series } => Ok(Fault::NoName { series }),
        BatchFault::Profile {
            series,
            sample,
            fault,
        } => profile_fault(series, sample, fault),
        BatchFault::Large { series, sample } => Ok(Fault::LargeBatch { series, sample }),
        BatchFault::NoMemory => Err(NoMemory),
    }
}

fn decide_batch(alloc: Global, body: &RawBody) -> Result<Demand, NoMemory>
    ensures { IfOk result (AsksBody (Ok body.now)) }
{
    match batch(alloc, body) {
        Ok(batch) => Ok(Demand::Write(SmallBatch { batch })),
        Err(fault) => Ok(Demand::Refused(batch_fault(fault)?)),
    }
}

/// What a body asks, which is let go as soon as it is read.
fn decide_body(alloc: Global, bytes: Bytes) -> Result<Demand, NoMemory>
    ensures { IfOk result (AsksBody (body_of bytes)) }
{
    match read_body(alloc, bytes) {
        Ok(body) => decide_batch(alloc, &body),
        Err(fault) => Ok(Demand::Refused(body_fault(fault)?)),
    }
}

/// The refusal of a write by its head, none where its body decides.
fn decide_write(request: &Request) -> Option<Demand>
    ensures { Knows (AsksWrite request.now) request.now result }
{
    if request.encoded {
        Some(Demand::Refused(Fault::Encoded))
    } else {
        None
    }
}

/// A time of the window, or the bound that stands where it is open.
fn decide_time(
    parameter: Parameter,
    bound: i64,
    text: Option<&Text>,
) -> Result<Result<i64, Fault>, NoMemory>
    ensures { IfOk result (AsksTime parameter bound (option_copied text.entry)) }
{
    let Some(text) = text else {
        return Ok(Ok(bound));
    };
    match moment(text.as_str()) {
        Ok(time) => Ok(Ok(time)),
        Err(MomentFault::BadTime) => Ok(Err(Fault::BadTime { parameter })),
        Err(MomentFault::NoMemory) => Err(NoMemory),
    }
}

fn decide_after(text: Option<&Text>) -> Result<u64, Fault>
    ensures { result ≡ after_of (option_copied text.entry) }
{
    match text {
        None => Ok(0),
        Some(text) => match read_size(text.as_bytes()) {
            Some(number) if number < 1 << 63 => Ok(number),
            _ => Err(Fault::BadAfter),
        },
    }
}

/// The first fault of these, or the query.
fn query_asked(
    question: Question,
    start: Result<i64, Fault>,
    end: Result<i64, Fault>,
    after: Result<u64, Fault>,
) -> Demand
    ensures { result ≡ query_asked question start end after }
{
    match (start, end, after) {
        (Err(fault), _, _) => Demand::Refused(fault),
        (Ok(_), Err(fault), _) => Demand::Refused(fault),
        (Ok(_), Ok(_), Err(fault)) => Demand::Refused(fault),
        (Ok(start), Ok(end), Ok(after)) => Demand::Read {
            query: query_of(question, Window { start, end }),
            after,
        },
    }
}

fn decide_within(parameters: &[Pair], question: Question) -> Result<Demand, NoMemory>
    ensures { IfOk result (AsksWithin parameters.now question) }
{
    let start = decide_time(Parameter::Start, i64::MIN, last_value(parameters, "start"))?;
    let end = decide_time(Parameter::End, i64::MAX, last_value(parameters, "end"))?;
    let after = decide_after(last_value(parameters, "after"));
    Ok(query_asked(question, start, end, after))
}

fn select_fault(fault: SelectFault) -> Result<Demand, NoMemory>
    ensures { IfOk result (IsSelectFault fault) }
{
    match fault {
        SelectFault::BadType => Ok(Demand::Refused(Fault::BadType)),
        SelectFault::BadMatcher { at } => Ok(Demand::Refused(Fault::BadMatcher { at: at as u64 })),
        SelectFault::NoMemory => Err(NoMemory),
    }
}

/// The selector that a text spells, or its refusal.
fn read_selector(alloc: Global, text: &str) -> Result<Result<Selector, SelectFault>, NoMemory>
    ensures { IfOk result (ReadsSelector text.now) }
{
    match selector(alloc, text) {
        Ok(selector) => Ok(Ok(selector)),
        Err(SelectFault::NoMemory) => Err(NoMemory),
        Err(fault) => Ok(Err(fault)),
    }
}

fn decide_listed(
    parameters: &[Pair],
    listing: Listing,
    selector: Result<Selector, SelectFault>,
) -> Result<Demand, NoMemory>
    ensures { IfOk result (AsksListed parameters.now listing selector) }
{
    match selector {
        Ok(selector) => decide_within(parameters, Question::List(listing, Some(selector))),
        Err(fault) => select_fault(fault),
    }
}

fn decide_list(alloc: Global, parameters: &[Pair], listing: Listing) -> Result<Demand, NoMemory>
    ensures { IfOk result
        (AsksList parameters.now listing (last_value (codes "query") parameters.now)) }
{
    match last_value(parameters, "query") {
        None => decide_within(parameters, Question::List(listing, None)),
        Some(text) => decide_listed(parameters, listing, read_selector(alloc, text.as_str())?),
    }
}

fn decide_summed(
    parameters: &[Pair],
    summing: Summing,
    selector: Result<Selector, SelectFault>,
) -> Result<Demand, NoMemory>
    ensures { IfOk result (AsksSummed parameters.now summing selector) }
{
    match selector {
        Ok(selector) => decide_within(parameters, Question::Sum(summing, selector)),
        Err(fault) => select_fault(fault),
    }
}

fn decide_sum(alloc: Global, parameters: &[Pair], summing: Summing) -> Result<Demand, NoMemory>
    ensures { IfOk result
        (AsksSum parameters.now summing (last_value (codes "query") parameters.now)) }
{
    match last_value(parameters, "query") {
        None => Ok(Demand::Refused(Fault::NoQuery)),
        Some(text) => decide_summed(parameters, summing, read_selector(alloc, text.as_str())?),
    }
}

/// What a request asks that is no write.
fn decide_query(alloc: Global, route: Route, query: &str) -> Result<Option<Demand>, NoMemory>
    ensures { IfOk result (λ known. MatchOption known (route ≡ Route.Write) (λ asked.
        (request : Request) → query.now ≡ query_of request.target → AsksOf route request asked)) }
{
    match route {
        Route::Write => Ok(None),
        Route::Types => Ok(Some(decide_within(
            parameters(alloc, query)?.as_slice(),
            Question::Types,
        )?)),
        Route::List(listing) => Ok(Some(decide_list(
            alloc,
            parameters(alloc, query)?.as_slice(),
            listing,
        )?)),
        Route::Sum(summing) => Ok(Some(decide_sum(
            alloc,
            parameters(alloc, query)?.as_slice(),
            summing,
        )?)),
        Route::Status => Ok(Some(Demand::Stand)),
    }
}

/// What a request asks of a resource, none where it is a write and its body decides.
fn decide_of(
    alloc: Global,
    route: Route,
    request: &Request,
    query: &str,
) -> Result<Option<Demand>, NoMemory>
    requires { query.now ≡ query_of request.now.target }
    ensures { IfOk result (Knows (AsksOf route request.now) request.now) }
{
    match decide_query(alloc, route, query)? {
        Some(asked) => Ok(Some(asked)),
        None => Ok(decide_write(request)),
    }
}

/// What a request asks of the resource that its path names, none where its body decides.
fn decide_route(
    alloc: Global,
    route: Option<Route>,
    request: &Request,
    query: &str,
) -> Result<Option<Demand>, NoMemory>
    requires { query.now ≡ query_of request.now.target }
    ensures { IfOk result (Knows (AsksRoute route request.now) request.now) }
{
    let Some(route) = route else {
        return Ok(Some(Demand::Refused(Fault::NoRoute)));
    };
    let method = method_of(&route);
    if request.method.as_slice() != method_name(method) {
        return Ok(Some(Demand::NotAllowed(method)));
    }
    decide_of(alloc, route, request, query)
}

/// What a request asks by its head, none where its body decides.
fn decide_head(alloc: Global, request: &Request) -> Result<Option<Demand>, NoMemory>
    ensures { IfOk result (Knows (Asks request.now) request.now) }
{
    let (path, query) = split_target(request.target.as_str());
    let route = route_of(alloc, path)?;
    decide_route(alloc, route, request, query)
}

/// What a request asks, whose body is let go as soon as it is read.
pub(crate) fn decide(alloc: Global, request: Request) -> Result<Demand, NoMemory>
    ensures { IfOk result (Asks request) }
{
    match decide_head(alloc, &request)? {
        Some(asked) => Ok(asked),
        None => decide_body(alloc, request.body),
    }
}
